// Reduces a vector of bytes by slots, one for each digit of its key: the one step of elimination and of solving.
#![tactic(auto)]

ghost use Rattle.std.specs.Prelude.{◌≡◌, ℕ, true, ◌*◌, ◌%◌, ◌^◌, ◌<◌, length, get_or, take, drop};
ghost use Rattle.std.specs.Int.Bits.{bit_xor};
ghost use Rattle.octets.specs.Octets.{bytes};
ghost use Rattle.words.specs.Words.{word_at};
ghost use Rattle.vectors.specs.Vectors.{bytes_of};
ghost use Rattle.basis.specs.Algorithm2.{digit};
ghost use Rattle.slots.specs.Reducing.{reducible, Grouped, Walked, pass_of, reduce_answer, reduce_work};

use vectors::Vector;

// Where a pass over slots stops: at an empty slot, by its number; or past them all. Misfit: they do not fit, and there is no pass. Three outcomes are no Option,
// and none of them is an error.
#[derive(Clone, Copy)]
pub enum Reduced {
    Stopped(usize),
    Spent,
    Misfit,
}

// Slots for each digit of a key, as wide as the vectors that have it, and heads that may tell of them. That slots are bytes is a field: a reference in a struct does not say
// it.
#[derive(Clone, Copy)]
struct Reducer<'a> {
    slots: &'a [u8],
    heads: &'a [u8],
    key: usize,
    width: usize,
    ghost bytes: { (i : ℕ) → get_or slots.now i 0 < 256 },
    ghost fits: { reducible key width (length slots.now) ≡ true },
}

// Whether the digit of x worth 2^b is set.
fn has(x: u64, b: usize) -> bool
    requires { b < 64 }
    ensures { result ≡ digit b x }
{
    (x >> b) % 2 == 1
}

// The digits of x that are left behind the one worth 2^b, once y is added.
fn behind(x: u64, y: u64, b: usize) -> u64
    requires { b < 64 }
    ensures { result ≡ bit_xor x y % 2 ^ b }
{
    (x ^ y) % (1u64 << b)
}

// The heads of the 64 slots from byte g of the key on, if there are any.
fn heads_from(heads: &[u8], g: usize) -> Option<&[u8; 512]>
    requires { g < 4096 }
{
    heads.get(64 * g..)?.first_chunk::<512>()
}

// The head for the digit worth 2^b.
fn head_of(heads: &[u8; 512], b: usize) -> u64
    requires { b < 64 }
{
    let at = 8 * b;
    let e = at + 8;
    littles::little(&heads[at..e], 0)
}

impl Reducer<'_> {
    fn slot(&self, u: usize) -> &[u8]
        requires { u < 8 * self.now.key }
        ensures { result.now ≡ take self.now.width (drop (u * self.now.width) self.now.slots.now) }
    {
        let at = u * self.width;
        let e = at + self.width;
        &self.slots[at..e]
    }

    // ---- 64 slots

    // The pass over the 64 slots from byte g of the key on, and where it stops: behind the last of them if it went by all. The word x has the digits that are left, so
    // that no byte is read back after a slot is added; which one is next hangs on that slot, so no iterator gives them. The pass goes on behind each slot, so it ends
    // on any slots.
    fn group(&self, work: &mut [u8], g: usize) -> usize
        requires wide { length work.old ≡ self.now.width }
        requires here { g < self.now.key }
        ensures { Grouped self.now.key self.now.slots.now work.old work.new g result }
    {
        let end = 8 * self.key;
        let mut x = words::word(work, g);
        while 0 < x {
            let b = bits::top(x);
            let u = 8 * g + 63 - b;
            if end <= u {
                return end;
            }
            let slot = self.slot(u);
            let y = words::word(slot, g);
            if !has(y, b) {
                return u;
            }
            octets::add(work, slot);
            x = behind(x, y, b);
        }
        (8 * g + 64).min(end)
    }

    // The same for a vector of 80 bytes, held in registers: the vector and where it ended; None where it met a slot that it can't go on from. Which slot is
    // next hangs on the word of the last one alone, and a head tells that word before the slot is found. A head is only told: each is held against its slot. A
    // slot with a digit before its own, as elimination leaves none, leads astray too: without one the sum of both words has the digits that are left, and no other.
    fn walk_on(
        &self,
        from: Vector,
        digits: u64,
        heads: &[u8; 512],
        g: usize,
    ) -> Option<(Vector, usize)>
        requires wide { self.now.width ≡ 80 }
        requires here { g < self.now.key }
        requires word { digits ≡ word_at g (bytes_of from) }
        ensures { Walked self.now.key self.now.slots.now (bytes_of from) g result }
    {
        let end = 8 * self.key;
        let mut v = from;
        let mut x = digits;
        while 0 < x {
            let b = bits::top(x);
            let u = 8 * g + 63 - b;
            if end <= u {
                return Some((v, end));
            }
            let y = head_of(heads, b);
            let slot = self.slot(u);
            if y != words::word(slot, g) {
                return None;
            }
            if y >> b != 1 {
                return if has(y, b) { None } else { Some((v, u)) };
            }
            v = vectors::plus(v, vectors::load(slot));
            x = x ^ y;
        }
        Some((v, (8 * g + 64).min(end)))
    }

    // The pass over the 64 slots in registers, unless a head leads astray; the word x has the vector's digits.
    fn walk_or_group(&self, work: &mut [u8], x: u64, heads: &[u8; 512], g: usize) -> usize
        requires wide { length work.old ≡ self.now.width }
        requires eighty { self.now.width ≡ 80 }
        requires here { g < self.now.key }
        requires word { x ≡ word_at g work.old }
        ensures { Grouped self.now.key self.now.slots.now work.old work.new g result }
    {
        match self.walk_on(vectors::load(work), x, heads, g) {
            Some((v, u)) => {
                vectors::store(work, v);
                u
            }
            None => self.group(work, g),
        }
    }

    // The same where there are heads for these slots. Where no digit is set, nothing is loaded.
    fn group_80(&self, work: &mut [u8], g: usize) -> usize
        requires wide { length work.old ≡ self.now.width }
        requires eighty { self.now.width ≡ 80 }
        requires here { g < self.now.key }
        ensures { Grouped self.now.key self.now.slots.now work.old work.new g result }
    {
        let x = words::word(work, g);
        if x == 0 {
            return (8 * g + 64).min(8 * self.key);
        }
        match heads_from(self.heads, g) {
            Some(heads) => self.walk_or_group(work, x, heads, g),
            None => self.group(work, g),
        }
    }

    // The pass over the 64 slots, as the vector's length allows.
    fn group_any(&self, work: &mut [u8], g: usize) -> usize
        requires wide { length work.old ≡ self.now.width }
        requires here { g < self.now.key }
        ensures { Grouped self.now.key self.now.slots.now work.old work.new g result }
    {
        if self.width == 80 {
            self.group_80(work, g)
        } else {
            self.group(work, g)
        }
    }

    // ---- the whole key

    // The pass of work, and where it stops: 8 * key if it went by all.
    fn sweep(&self, work: &mut [u8]) -> usize
        requires { length work.old ≡ self.now.width }
        ensures stop { result ≡ (pass_of self.now.key self.now.slots.now work.old).stop }
        ensures left { work.new ≡ bytes (length work.old) (pass_of self.now.key self.now.slots.now work.old).vector }
    {
        for g in (0..self.key).step_by(8) {
            let u = self.group_any(work, g);
            if u < 8 * g + 64 {
                return u;
            }
        }
        8 * self.key
    }
}

// Whether a vector of w bytes with such a key, and room for its slots, fit.
#[tactic(auto, unfolding(crate::specs::Reducing::reducible))]
fn fitting(key: usize, w: usize, room: usize) -> bool
    ensures { result ≡ reducible key w room }
{
    key <= w && w <= 4096 && 8 * key * w <= room
}

// Takes slots off work until its key has no digit left, or one whose slot is empty. Heads make that faster for vectors of 80 bytes: for the
// slot t they repeat, at 512 * (t / 64) + 8 * (63 - t % 64), the eight bytes in which its digit stands, the last one first. Whatever they
// hold, the answer is the same.
#[tactic(auto, unfolding(crate::specs::Reducing::reduce_answer, crate::specs::Reducing::reduce_work, crate::specs::Reducing::stop_of))]
pub fn reduce(work: &mut [u8], slots: &[u8], heads: &[u8], key: usize) -> Reduced
    ensures answer { result ≡ reduce_answer key slots.now work.old }
    ensures left { work.new ≡ reduce_work key slots.now work.old }
{
    let width = work.len();
    if !fitting(key, width, slots.len()) {
        return Reduced::Misfit;
    }
    let slots = Reducer {
        slots,
        heads,
        key,
        width,
    };
    let t = slots.sweep(work);
    if t < 8 * key {
        Reduced::Stopped(t)
    } else {
        Reduced::Spent
    }
}
