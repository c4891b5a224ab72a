// The page that filled slots give, symbol by symbol.
#![tactic(auto)]

ghost use Rattle.std.specs.Prelude.{◌≡◌, ◌+◌, ◌*◌, ◌≤◌, ◌<◌, length};
ghost use Rattle.octets.specs.Octets.{bytes, flat, over};
ghost use Rattle.page_of_slots.specs.Symbols.{slots_in, symbol_in, page_in, page_after};
ghost use Rattle.page_of_slots.specs.Parts.{Ready, unit_of};

// Makes work the row (2^k, 0).
fn unit(work: &mut [u8], k: usize)
    requires wide { 8 ≤ length work.old }
    requires bit { k < 64 }
    ensures { work.new ≡ unit_of (length work.old) k }
{
    work.fill(0);
    numerals::put(&mut work[..8], 1u64 << k);
}

// Writes symbol k over out. Where the pass stops is nothing to it: what is left in the payload is the symbol.
fn symbol(out: &mut [u8], work: &mut [u8], slots: &[u8], k: usize)
    requires ready { Ready (8 + length out.old) work.old slots.now }
    requires bit { k < 64 }
    ensures { out.new ≡ bytes (length out.old) (symbol_in (length out.old) (slots_in (8 + length out.old) slots.now) k) }
{
    unit(work, k);
    let _ = entering::pass(work, slots);
    octets::copy(out, &work[8..]);
}

// Writes the n symbols of l bytes over the first bytes of page.
fn symbols(page: &mut [u8], work: &mut [u8], slots: &[u8], n: usize, l: usize)
    requires ready { Ready (8 + l) work.old slots.now }
    requires few { n ≤ 64 }
    requires room { n * l ≤ length page.old }
    ensures { page.new ≡ over (flat l (page_in n l (slots_in (8 + l) slots.now))) page.old }
{
    for k in 0..n {
        let at = k * l;
        let end = at + l;
        symbol(&mut page[at..end], work, slots, k);
    }
}

// Writes the page that slots give over the first bytes of page, where the shape is in range, these are slots, and there is room.
#[tactic(auto, unfolding(crate::specs::Symbols::page_after, crate::specs::Symbols::writable, entering::specs::Enter::slot_bytes))]
pub fn write(n: u8, l: u8, slots: &[u8], page: &mut [u8])
    ensures { page.new ≡ page_after n l slots.now page.old }
{
    let size = n as usize * l as usize;
    if rows::shaped(n, l) && slots.len() == entering::SLOTS && size <= page.len() {
        let mut work = [0u8; 80];
        symbols(page, &mut work, slots, n as usize, l as usize);
    }
}
