// The pieces of a window as a lent list of records.
#![tactic(auto)]

pub mod reader;

ghost use Rattle.std.specs.Prelude.{◌≡◌, length, is_some};
ghost use Rattle.lent.specs.Table.{bytes_of};
ghost use Rattle.omap.specs.Output.{told_windowed, window_spec};
ghost use Rattle.ranges.specs.ListOut.{list_out};

use omap::fitting::Fitting;
use omap::windows::WindowRefusal;

// An entry of the list: where a piece goes.
pub use omap::piece::Range as Piece;

// The pieces of a..b as records of start and end, in source order, with the answers of `omap::windows::window`; an entry
// of the lent list is a record. A refused call writes nothing. `window`, `drain` and this are refused alike and write
// each in its way: one function for all would take that as a closure, and its promise with it.
#[tactic(auto, unfolding(omap::specs::Output::window_spec, crate::specs::ListOut::list_out, lent::specs::Room::room_for))]
pub fn list(table: Option<&[u8]>, a: u32, b: u32, out: &mut [Piece]) -> Result<usize, WindowRefusal>
    ensures answer { told_windowed result ≡ window_spec (is_some table.entry) (bytes_of table.entry) a b (length out.old) }
    ensures output { out.new ≡ list_out (is_some table.entry) (bytes_of table.entry) a b out.old }
{
    let window = Fitting::of(table, a, b)?;
    if window.count > out.len() {
        return Err(WindowRefusal::Short(window.count));
    }
    let mut pieces = window.pieces;
    // Counted: `for (k, piece) in pieces.enumerate()` is proved too, and took 8 in 100 longer over a thousand pieces.
    for k in 0..window.count {
        let piece = pieces.next().unwrap();
        out[k] = piece.range();
    }
    Ok(window.count)
}
