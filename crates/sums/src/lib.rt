// The sum of the symbols of a page that a constraint names: the payload of its row.
#![tactic(auto)]

ghost use Rattle.std.specs.Prelude.{◌≡◌, ◌/◌, ◌^◌, ◌<◌, length};
ghost use Rattle.octets.specs.Octets.{bytes, xor_bytes};
ghost use Rattle.rows.specs.Rows.{named};
ghost use Rattle.rows.specs.Bytes.{cut};

// Adds to into each symbol of page that a bit of names stands for; a symbol is as long as into.
fn add_named(into: &mut [u8], page: &[u8], names: u64)
    requires some { 0 < length into.old }
    requires inside { names < 2 ^ (length page.now / length into.old) }
    ensures { into.new ≡ xor_bytes into.old (bytes (length into.old) (named (cut (length into.old) page.now) names)) }
{
    let l = into.len();
    for bit in bits::set_bits(names) {
        let start = bit * l;
        octets::add(into, &page[start..start + l]);
    }
}

// Writes over into the sum of the symbols of page that constraint names; a symbol is as long as into. Bits past the page name nothing.
pub fn sum(into: &mut [u8], page: &[u8], constraint: u64)
    ensures { into.new ≡ bytes (length into.old) (named (cut (length into.old) page.now) constraint) }
{
    octets::clear(into);
    let l = into.len();
    if l == 0 {
        return;
    }
    let n = page.len() / l;
    add_named(into, page, bits::low(constraint, n));
}
