// The search by halving.
ghost use Rattle.std.specs.Prelude.{◌≡◌, cond, ◌≤◌};
ghost use Rattle.lent.specs.Search.{binary_search};

use crate::fields::u32_at;

// One of two places: a chosen value, where a branch would be guessed wrong half of the time.
fn chosen(first: bool, x: usize, y: usize) -> usize
    ensures { result ≡ cond first x y }
{
    if first { x } else { y }
}

// Where a search by halving ends, and how many records it probed.
#[derive(Clone, Copy)]
pub struct Searched {
    pub place: usize,
    pub probes: usize,
}

// The search by halving on any table. The library's own does not tell how many records it probed. Written so that a
// processor need not wait: the middles of both halves are reckoned while the record is loaded, and the number of turns
// does not depend on what is found, since all runs after as many probes are `longest` records long or one less.
#[tactic(auto, using(crate::proofs::Place::inside, crate::proofs::Place::four_each))]
pub fn binary_search(table: &[u8], width: usize, address: u32) -> Searched
    requires { 4 ≤ width }
    ensures { result ≡ binary_search width table.now address }
{
    let mut lo = 0;
    let mut hi = table.len() / width;
    let mut middle = hi / 2;
    let mut longest = hi;
    let mut probes = 0;
    while longest > 1 {
        let past = u32_at(table, width * middle) <= address;
        let in_after = (middle + 1 + hi) / 2;
        let in_before = (lo + middle) / 2;
        lo = chosen(past, middle + 1, lo);
        hi = chosen(past, hi, middle);
        middle = chosen(past, in_after, in_before);
        longest = longest / 2;
        probes += 1;
    }
    if lo == hi {
        return Searched { place: lo, probes };
    }
    let past = u32_at(table, width * lo) <= address;
    Searched {
        place: chosen(past, lo + 1, lo),
        probes: probes + 1,
    }
}
