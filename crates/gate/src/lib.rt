// The checks 1 to 3 of a list, by lengths alone: document 01, "Answer numbers of a reading".
#![tactic(auto)]

ghost use Rattle.std.specs.Prelude.{◌≡◌};
ghost use Rattle.reading.specs.Outcome.{whole_length, room_for};
ghost use Rattle.gate.specs.Gate.{gate, refused};

use reading::Answer;

// What the checks 1 to 3 refuse a list for.
#[derive(Clone, Copy)]
pub enum Refusal {
    Shape,
    List,
    Room,
}

impl From<Refusal> for Answer {
    ghost from_gives = { λ refusal answer. answer ≡ refused refusal };

    fn from(refusal: Refusal) -> Answer {
        match refusal {
            Refusal::Shape => Answer::Shape,
            Refusal::List => Answer::List,
            Refusal::Room => Answer::Room,
        }
    }
}

// The lengths of what a reading is lent: page room, uses, roles and scratch.
#[derive(Clone, Copy)]
pub struct Lengths {
    pub page: usize,
    pub uses: usize,
    pub roles: usize,
    pub scratch: usize,
}

// "scratch (at least 32,768 bytes)".
pub const SCRATCH: usize = 32768;

// Whether a list of so many bytes has whole rows, at most 512.
#[tactic(auto, unfolding(reading::specs::Outcome::whole_length))]
pub fn whole(l: u8, list: usize) -> bool
    ensures { result ≡ whole_length l list }
{
    list % rows::stride(l) == 0 && lists::count(list, l) <= places::MOST_ROWS
}

// Whether what is lent is long enough for so many bytes of a page and so many rows.
#[tactic(auto, unfolding(reading::specs::Outcome::room_for, reading::specs::Outcome::scratch_bytes))]
pub fn room_fits(bytes: usize, m: usize, lent: Lengths) -> bool
    ensures { result ≡ room_for bytes m lent.page lent.uses lent.roles lent.scratch }
{
    bytes <= lent.page && m <= lent.uses && m <= lent.roles && SCRATCH <= lent.scratch
}

#[tactic(auto, unfolding(crate::specs::Gate::gate))]
pub fn check(n: u8, l: u8, list: usize, lent: Lengths) -> Result<(), Refusal>
    ensures { result ≡ gate n l list lent.page lent.uses lent.roles lent.scratch }
{
    if !rows::shaped(n, l) {
        return Err(Refusal::Shape);
    }
    if !whole(l, list) {
        return Err(Refusal::List);
    }
    let m = lists::count(list, l);
    if !room_fits(n as usize * l as usize, m, lent) {
        return Err(Refusal::Room);
    }
    Ok(())
}
