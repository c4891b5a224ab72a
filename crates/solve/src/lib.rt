// From the picked rows to the page, or singular.
#![tactic(auto)]

ghost use Rattle.std.specs.Prelude.{◌≡◌, length};
ghost use Rattle.entering.specs.Enter.{slot_bytes};
ghost use Rattle.solve.specs.Solve.{solvable, solve_answer, solve_page, solve_slots};
ghost use Rattle.solve.specs.Parts.{told, page_told};

// The bytes that solving asks for its slots.
pub const SLOTS: usize = entering::SLOTS;

// Why there is no page: Singular is document 01's answer 7; Misfit is for arguments that do not fit.
#[derive(Clone, Copy)]
pub enum Unsolved {
    Singular,
    Misfit,
}

// Whether the rows with role 2 are n that name no symbol past the page, and each buffer is long enough.
#[tactic(auto, unfolding(crate::specs::Solve::solvable, entering::specs::Enter::slot_bytes))]
fn fitting(n: u8, l: u8, list: &[u8], roles: &[u8], slots: &[u8], page: &[u8]) -> bool
    ensures { result ≡ solvable n l list.now roles.now slots.now page.now }
{
    chosen::proper(n, l, list, roles)
        && SLOTS <= slots.len()
        && n as usize * l as usize <= page.len()
}

// The rows go into cleared slots, and only where all did are the symbols written; whether they were.
fn write_page(page: &mut [u8], slots: &mut [u8], list: &[u8], roles: &[u8], n: u8, l: u8) -> bool
    requires { length slots.old ≡ slot_bytes }
    ensures answer { result ≡ (told l list.now roles.now).all }
    ensures page { page.new ≡ page_told n l list.now roles.now page.old }
{
    octets::clear(slots);
    let all = filling::fill(l, list, roles, slots);
    if all {
        page_of_slots::write(n, l, slots, page);
    }
    all
}

// From the rows whose role is 2 to the page. The slots are left cleared.
#[tactic(auto, unfolding(crate::specs::Solve::solve_answer, crate::specs::Solve::solve_slots, crate::specs::Solve::solve_page, crate::specs::Solve::solvable, entering::specs::Enter::slot_bytes))]
pub fn solve(
    n: u8,
    l: u8,
    list: &[u8],
    roles: &[u8],
    slots: &mut [u8],
    page: &mut [u8],
) -> Result<(), Unsolved>
    ensures answer { result ≡ solve_answer n l list.now roles.now slots.old page.old }
    ensures slots { slots.new ≡ solve_slots result slots.old }
    ensures page { page.new ≡ solve_page result n l list.now roles.now page.old }
{
    if !fitting(n, l, list, roles, slots, page) {
        return Err(Unsolved::Misfit);
    }
    let all = write_page(page, &mut slots[..SLOTS], list, roles, n, l);
    octets::clear(&mut slots[..SLOTS]);
    if all { Ok(()) } else { Err(Unsolved::Singular) }
}
