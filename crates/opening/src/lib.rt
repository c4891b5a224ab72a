// Opens a store for a page. Document 02, wish 5.
#![tactic(auto)]

ghost use Rattle.std.specs.Prelude.{◌≡◌, Err, [], ◌∷◌, ◌++◌};
ghost use Rattle.octets.specs.Octets.{bytes, over};
ghost use Rattle.opening.specs.Opening.{number_of, open_answer, opened_store};

// Why a store is not opened; specs/Opening.antt gives document 02's number for each case.
#[derive(Clone, Copy)]
pub enum Refusal {
    Shape,
    Room,
}

impl From<Refusal> for u8 {
    ghost from_gives = { λ refusal number. number ≡ number_of (Err refusal) };

    #[tactic(auto, unfolding(crate::specs::Opening::number_of))]
    fn from(refusal: Refusal) -> u8 {
        match refusal {
            Refusal::Shape => 1,
            Refusal::Room => 3,
        }
    }
}

// The page number, n and L, at the start of the header.
#[tactic(auto, using(crate::proofs::Written::page_put))]
fn put_page(store: &mut [u8; store::BYTES], page: u32, n: u8, l: u8)
    ensures { store.new ≡ over (bytes 4 page ++ (n ∷ l ∷ [])) store.old }
{
    numerals::put(&mut store[..4], page as u64);
    store[4] = n;
    store[5] = l;
}

// Opens a store for a page of this number, n and L: it has no rows. "Opening again forgets everything." A refusal writes nothing.
#[tactic(auto, unfolding(crate::specs::Opening::opened_store, crate::specs::Opening::open_answer, crate::specs::Opening::after, store::specs::Store::is_store, store::specs::Store::store_bytes))]
pub fn open(store: &mut [u8], page: u32, n: u8, l: u8) -> Result<(), Refusal>
    ensures answer { result ≡ open_answer n l store.old }
    ensures store { store.new ≡ opened_store page n l store.old }
{
    if !rows::shaped(n, l) {
        return Err(Refusal::Shape);
    }
    let Some(whole) = store.first_chunk_mut::<{ store::BYTES }>() else {
        return Err(Refusal::Room);
    };
    whole.fill(0);
    put_page(whole, page, n, l);
    Ok(())
}
