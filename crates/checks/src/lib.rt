// The checks 1 to 4 of a list, in their order: document 01, "Answer numbers of a reading".
#![tactic(auto)]

ghost use Rattle.std.specs.Prelude.{◌≡◌};
ghost use Rattle.checks.specs.Checks.{check_of, all_checks};

use gate::Lengths;
use reading::Answer;

// What the checks 1 to 4 say of a list, for buffers of these lengths: it passes, or the first answer that applies.
#[tactic(auto, unfolding(crate::specs::Checks::check_of, crate::specs::Checks::all_checks, crate::specs::Checks::through, strays::specs::Strays::stray_check))]
pub fn all(n: u8, l: u8, list: &[u8], lent: Lengths) -> Result<(), Answer>
    ensures { check_of result ≡ all_checks n l list.now lent.page lent.uses lent.roles lent.scratch }
{
    gate::check(n, l, list.len(), lent)?;
    match strays::first_stray(n, l, list) {
        Some(arrival) => Err(Answer::Stray(arrival)),
        None => Ok(()),
    }
}
