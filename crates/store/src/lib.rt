// The store: the rows of a scan and the working of their elimination in one buffer. Where everything lies in it, and what its header says.
#![tactic(auto)]

ghost use Rattle.std.specs.Prelude.{◌≡◌, ◌+◌, ◌-◌, ◌≤◌};
ghost use Rattle.store.specs.Store.{part_start, part_in, list_start, list_in, working_start, working_in};
ghost use Rattle.store.specs.Header.{number_of, header_of};

// "one lent buffer of 65,536 bytes"; where the list begins, and the working, and where the working ends.
pub const BYTES: usize = 65536;

pub const LIST: usize = 16;

pub const WORKING: usize = 32768;

pub const END: usize = WORKING + state::BYTES;

// The places, by pairs of bytes, of the three numbers in the header that change with a row.
pub const ROWS: usize = 3;

pub const TAKEN: usize = 4;

pub const RANK: usize = 5;

// What a header says that is in range: the page; how many rows there are, how many of them count, and how many are kept.
// The ranges are no ghost fields: specs/Header.antt reads a Head off any bytes, in range or not, and only then says which are good.
#[derive(Clone, Copy)]
pub struct Head {
    pub page: u32,
    pub n: u8,
    pub l: u8,
    pub rows: usize,
    pub taken: usize,
    pub rank: usize,
}

// Why a header is refused; specs/Header.antt gives document 02's number for each.
#[derive(Clone, Copy)]
pub enum Refusal {
    Short,
    OutOfRange,
}

impl From<Refusal> for u8 {
    ghost from_gives = { λ refusal number. number ≡ number_of refusal };

    #[tactic(auto, unfolding(crate::specs::Header::number_of))]
    fn from(refusal: Refusal) -> u8 {
        match refusal {
            Refusal::Short => 3,
            Refusal::OutOfRange => 10,
        }
    }
}

// Checks the header of a store, and gives what it says.
#[tactic(auto, unfolding(crate::specs::Header::header_of, crate::specs::Header::head_in, crate::specs::Store::is_store, crate::specs::Store::store_bytes, crate::specs::Store::page_in, crate::specs::Store::n_in, crate::specs::Store::l_in, crate::specs::Store::rows_in, crate::specs::Store::taken_in, crate::specs::Store::rank_in))]
pub fn check(store: &[u8]) -> Result<Head, Refusal>
    ensures { result ≡ header_of store.now }
{
    if store.len() < BYTES {
        return Err(Refusal::Short);
    }
    let n = store[4];
    let l = store[5];
    if !rows::shaped(n, l) {
        return Err(Refusal::OutOfRange);
    }
    let rows = doubles::pair(store, ROWS) as usize;
    if places::MOST_ROWS < rows {
        return Err(Refusal::OutOfRange);
    }
    Ok(Head {
        page: words::four(store),
        n,
        l,
        rows,
        taken: doubles::pair(store, TAKEN) as usize,
        rank: doubles::pair(store, RANK) as usize,
    })
}

// The bytes of a store from one place up to another, as that part of the buffer itself; the empty part at its start where it is too short for a store.
#[tactic(auto, unfolding(crate::specs::Store::part_in, crate::specs::Store::part_start, crate::specs::Store::is_store, crate::specs::Store::store_bytes))]
fn part(store: &[u8], from: usize, to: usize) -> &[u8]
    requires ordered { from ≤ to }
    requires inside { to ≤ BYTES }
    ensures shows { result.now ≡ part_in from (to - from) store.now }
    ensures points { result.ref_ptr ≡ (store.entry.ref_ptr.0, part_start from store.now + store.entry.ref_ptr.1) }
{
    if store.len() < BYTES {
        return &store[..0];
    }
    &store[from..to]
}

// The list.
#[tactic(auto, unfolding(crate::specs::Store::list_in, crate::specs::Store::list_start, crate::specs::Store::list_at, crate::specs::Store::list_room))]
pub fn list(store: &[u8]) -> &[u8]
    ensures shows { result.now ≡ list_in store.now }
    ensures points { result.ref_ptr ≡ (store.entry.ref_ptr.0, list_start store.now + store.entry.ref_ptr.1) }
{
    part(store, LIST, WORKING)
}

// The working: the state of the elimination of these rows.
#[tactic(auto, unfolding(crate::specs::Store::working_in, crate::specs::Store::working_start, crate::specs::Store::working_at, state::specs::Layout::state_bytes))]
pub fn working(store: &[u8]) -> &[u8]
    ensures shows { result.now ≡ working_in store.now }
    ensures points { result.ref_ptr ≡ (store.entry.ref_ptr.0, working_start store.now + store.entry.ref_ptr.1) }
{
    part(store, WORKING, END)
}
