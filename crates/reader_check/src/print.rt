// A line for each reading: the numbers of its answer, and what each buffer holds afterwards.
use reading::Answer;
use std::{fmt, io};

// A bar, and the numbers that a buffer holds.
#[derive(Clone, Copy)]
struct Barred<'a, T>(&'a [T]);

impl<T: fmt::Display> fmt::Display for Barred<'_, T> {
    fn fmt<W: fmt::Write>(&self, f: &mut fmt::Formatter<W>) -> fmt::Result {
        write!(f, "| ")?;
        for x in self.0 {
            write!(f, "{x} ")?;
        }
        Ok(())
    }
}

// Of the scratch, how many bytes are zero, and how many are not.
pub(crate) fn reading(
    rt: &impl Print,
    answer: Answer,
    page: &[u8],
    uses: &[u16],
    roles: &[u8],
    scratch: &[u8],
) -> io::Result<()> {
    let told = answer_numbers::numbers_of(answer);
    print!(rt;
        "{} {} {} {} ",
        told.number, told.rank, told.place, told.agreement
    )?;
    print!(rt; "{}{}{}", Barred(page), Barred(uses), Barred(roles))?;
    let zeros = scratch.iter().filter(|&&b| b == 0).count();
    let others = scratch.iter().filter(|&&b| b != 0).count();
    println!(rt; "| {zeros} {others} ")
}
