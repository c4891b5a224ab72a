// The check 4 of a list: the first row with a stray bit.
#![tactic(auto)]

ghost use Rattle.std.specs.Prelude.{◌≡◌, ◌^◌, leb};
ghost use Rattle.words.specs.Words.{word_at};
ghost use Rattle.strays.specs.Strays.{stray_check, strays_in};

use places::Arrival;

// Whether a row of a list has a stray bit.
#[tactic(auto, unfolding(rows::specs::Bytes::stray))]
fn row_strays(row: &[u8], n: u8) -> bool
    ensures { result ≡ leb (2 ^ n) (word_at 0 row.now) }
{
    rows::strays(n, words::word(row, 0))
}

// The first row with a stray bit, if there is one, of a list of at most 512 rows: a longer one is refused before.
pub fn first_stray(n: u8, l: u8, list: &[u8]) -> Option<Arrival>
    ensures { stray_check result ≡ strays_in n l list.now }
{
    let m = lists::count(list.len(), l);
    if places::MOST_ROWS < m {
        return None;
    }
    (0..m)
        .map(Arrival)
        .find(|&arrival| row_strays(lists::row(list, l, arrival), n))
}
