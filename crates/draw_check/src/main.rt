// Prints draws: on each line a seed and its constraints for n = 1 to 64. The plain program docs/src/bin/draws.rs prints the same.
#![tactic(auto)]

ghost use Rattle.std.specs.Prelude.{◌≡◌};
ghost use Rattle.draw.specs.Draw.{drawn, constraint_of};

use arrayvec::ArrayString;
use std::fmt::Write;
use std::{fmt, io};

// A seed's 8 digits, a space and 16 digits for each n, and the line's end.
const LINE: usize = 8 + 64 * 17 + 1;

const SEEDS: u32 = 104;

// The seeds 0, 1, 2 and the largest, and then scattered ones.
fn seed_at(i: u32) -> u32 {
    match i {
        0 | 1 | 2 => i,
        3 => u32::MAX,
        _ => ((i as u64 - 1) * 2654435761 % 4294967296) as u32,
    }
}

#[tactic(auto, unfolding(draw::specs::Draw::constraint_of))]
fn constraint(n: u8, seed: u32) -> u64
    ensures { result ≡ constraint_of (drawn n seed) }
{
    draw::draw(n, seed).unwrap_or(0)
}

// A seed's 8 digits, and a space and 16 digits for each n.
#[derive(Clone, Copy)]
struct Draws(u32);

impl fmt::Display for Draws {
    fn fmt<W: fmt::Write>(&self, f: &mut fmt::Formatter<W>) -> fmt::Result {
        let seed = self.0;
        write!(f, "{seed:08x}")?;
        for n in 1..=64u8 {
            let drawn = constraint(n, seed);
            write!(f, " {drawn:016x}")?;
        }
        Ok(())
    }
}

// A line is written at once: std's println hands over 1,024 bytes at most.
fn print(rt: &impl Print, seed: u32) -> io::Result<()> {
    let mut line = ArrayString::<LINE>::new();
    let _ = write!(line, "{}\n", Draws(seed));
    rt.write_all(line.as_str().as_bytes())
}

fn main(rt: HostRuntime) -> io::Result<()> {
    for i in 0..SEEDS {
        print(&rt, seed_at(i))?;
    }
    Ok(())
}
