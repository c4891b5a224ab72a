// What a reading of a list is: the definitions stand in specs/, their laws in proofs/. The code has the types of an answer alone.
#![tactic(auto)]

// The answer of a reading; specs/Answer.antt gives document 01's number, rank, place and agreement for each case. It is no Result: 5 to 7 give a rank, uses and
// roles as 0 does.
#[derive(Clone, Copy)]
pub enum Answer {
    Page { rank: usize, agreement: usize },
    Shape,
    List,
    Room,
    Stray(places::Arrival),
    Few { rank: usize },
    Tie { rank: usize },
    Singular { rank: usize },
}

#[derive(Clone, Copy)]
pub struct Numbers {
    pub number: u8,
    pub rank: usize,
    pub place: usize,
    pub agreement: usize,
}
