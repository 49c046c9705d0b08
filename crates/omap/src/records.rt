// The records of a table in order that a window can have pieces of, and where their addresses end.
ghost use Rattle.std.specs.Prelude.{◌≡◌, true, ◌+◌, ◌<◌, min};
ghost use Rattle.lent.specs.Order.{rising, keys};
ghost use Rattle.omap.specs.Records.{rest};
ghost use Rattle.omap.specs.Window.{next_of};
ghost use Rattle.omap.specs.Walk.{Below, Begins};

use lent::{OMAP, binary_search, u32_at};

// How many records begin below b.
pub(crate) fn below(table: &[u8], b: u32) -> usize
    requires { rising (keys 8 table.now) ≡ true }
    ensures { Below table.now b result }
{
    match b.checked_sub(1) {
        Some(last) => binary_search(table, OMAP.width, last).place,
        None => 0,
    }
}

// The place of the first record that can have a piece in a window from a on.
pub(crate) fn first_from(table: &[u8], a: u32) -> usize
    requires { rising (keys 8 table.now) ≡ true }
    ensures { Begins table.now a result }
{
    binary_search(table, OMAP.width, a).place.saturating_sub(1)
}

// Where the addresses of record i below b end, with `last` records that begin below b.
// No method of `Pieces`: who walks has the table's bytes in hand, and would look for them behind its `Option` each time.
pub fn end_in(table: &[u8], i: usize, last: usize, b: u32) -> u32
    requires { (i < last) × Below table.now b last }
    ensures { result ≡ min b (next_of (rest table.now (i + 1))) }
{
    if last <= i + 1 {
        b
    } else {
        u32_at(table, OMAP.width * (i + 1))
    }
}
