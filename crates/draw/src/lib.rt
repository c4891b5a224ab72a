// Draws a constraint from a seed, by Bob Jenkins's small noncryptographic generator, 32-bit form.
#![tactic(auto)]

ghost use Rattle.std.specs.Prelude.{◌≡◌, ◌<◌, ◌≤◌};
ghost use Rattle.draw.specs.Draw as spec;

// The generator's state. Its form is document 01's: it steps by wrapping add and subtract on u32, and rot is a helper of shifts.
#[derive(Clone, Copy)]
struct Generator {
    a: u32,
    b: u32,
    c: u32,
    d: u32,
}

// "Twenty steps are thrown away."
const THROWN_AWAY: usize = 20;

fn rot(x: u32, k: u32) -> u32
    requires some { 0 < k }
    requires narrow { k < 32 }
    ensures { result ≡ spec.rot x k }
{
    (x << k) | (x >> (32 - k))
}

impl Generator {
    #[tactic(auto, unfolding(crate::specs::Draw::start))]
    fn start(seed: u32) -> Self
        ensures { result ≡ spec.start seed }
    {
        Generator {
            a: 0xF1EA5EED,
            b: seed,
            c: seed,
            d: seed,
        }
    }

    #[tactic(auto, using(crate::proofs::Laws::difference_only), unfolding(crate::specs::Draw::step, crate::specs::Draw::sum))]
    fn step(self) -> Self
        ensures { result ≡ spec.step self }
    {
        let e = std::num::wrapping_sub_u32(self.a, rot(self.b, 27));
        let a = self.b ^ rot(self.c, 17);
        let b = std::num::wrapping_add_u32(self.c, self.d);
        let c = std::num::wrapping_add_u32(self.d, e);
        let d = std::num::wrapping_add_u32(e, a);
        Generator { a, b, c, d }
    }

    // The generator of a seed, ready to draw.
    #[tactic(auto, unfolding(crate::specs::Draw::steps, crate::specs::Draw::settled))]
    fn settled(seed: u32) -> Self
        ensures { result ≡ spec.settled seed }
    {
        let mut g = Generator::start(seed);
        for _ in 0..THROWN_AWAY {
            g = g.step();
        }
        g
    }

    // "The next two draws are the high and low half of a 64-bit number".
    #[tactic(auto, using(crate::proofs::Shifts::shl_or), unfolding(crate::specs::Draw::two_draws))]
    fn two_draws(self) -> u64
        ensures { result ≡ spec.two_draws self }
    {
        let high = self.step();
        let low = high.step();
        ((high.d as u64) << 32) | (low.d as u64)
    }
}

#[tactic(auto, using(crate::proofs::Shifts::shl_one), unfolding(crate::specs::Draw::constraint))]
fn constraint(n: u8, seed: u32) -> u64
    requires n_low { 1 ≤ n }
    requires n_high { n ≤ 64 }
    ensures { result ≡ spec.constraint n seed }
{
    let low = bits::low(Generator::settled(seed).two_draws(), n as usize);
    if low == 0 {
        1u64 << (seed % (n as u32))
    } else {
        low
    }
}

// "Drawing on its own with n out of range is refused": None. specs/Draw.antt gives document 01's number and constraint for each answer.
#[tactic(auto, unfolding(crate::specs::Draw::drawn, crate::specs::Draw::in_range))]
pub fn draw(n: u8, seed: u32) -> Option<u64>
    ensures { result ≡ spec.drawn n seed }
{
    if n < 1 || 64 < n {
        return None;
    }
    Some(constraint(n, seed))
}
