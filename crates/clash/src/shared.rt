// The targets that a piece of a window shares with later ones.
ghost use Rattle.std.specs.Prelude.{◌≡◌, ◌+◌, ◌-◌, ◌*◌, ◌≤◌, ◌<◌, true, is_some};
ghost use Rattle.lent.specs.Le.{le_at};
ghost use Rattle.lent.specs.Table.{bytes_of};
ghost use Rattle.omap.specs.Records.{rest};
ghost use Rattle.omap.specs.Window.{pieces};
ghost use Rattle.clash.specs.Shared.{first_shared, told_shared, Better};

use lent::{OMAP, bytes_or_none, u32_at};
use omap::piece::Piece;
use omap::records::end_in;
use omap::walk::Pieces;

// A target that a piece shares with a later one, and its source there. Where it is the least found so far, and none is
// found, its target is the end of the search: no Option, since each record's target is compared with it either way.
#[derive(Clone, Copy)]
pub struct Shared {
    pub target: u64,
    pub source: u32,
}

// The address of a piece that goes to one of its targets.
pub fn source_of(piece: Piece, target: u64) -> u32
    requires to { (piece.to ≤ target) × (target < piece.to + piece.size) }
    requires inside { piece.at + piece.size ≤ 4294967295 }
    ensures { result ≡ piece.at + (target - piece.to) }
{
    (piece.at + (target - piece.to)) as u32
}

// The best of what is found so far and of what record i, whose target is below that, takes below the window's end to
// the targets from `from` on. Its caller has each of the six in hand: a struct of them would be made anew for each record.
fn better(window: Pieces, table: &[u8], i: usize, from: u64, target: u64, best: Shared) -> Shared
    requires { (table.now ≡ bytes_of window.table)
        × ((i < window.last) × ((from < best.target)
        × ((target ≡ le_at 4 table.now (8 * i + 4)) × ((target < best.target) × (is_some window.table ≡ true))))) }
    ensures { Better table.now window.entry.b i from best result }
{
    if target == 0 {
        return best;
    }
    let source = u32_at(table, OMAP.width * i);
    let size = (end_in(table, i, window.last, window.b) - source) as u64;
    if target + size <= from {
        return best;
    }
    if target <= from {
        return Shared {
            target: from,
            source: (source as u64 + (from - target)) as u32,
        };
    }
    Shared { target, source }
}

// The first of the targets of a piece to which one of the records that a walk still has to come takes an address below
// the window's end. A record costs one load and one comparison if its target is not below what is found already.
pub fn first_shared(window: Pieces, piece: Piece) -> Option<Shared>
    requires { 0 < piece.size }
    ensures { told_shared result
        ≡ first_shared (pieces 0 window.entry.b (rest (bytes_of window.entry.table) window.entry.next)) piece.to piece.size }
{
    // An absent table has no record to share with.
    let Some(_) = window.table else {
        return None;
    };
    let table = bytes_or_none(window.table);
    let from = piece.to;
    let end = from + piece.size;
    let mut best = Shared {
        target: end,
        source: 0,
    };
    for i in window.next..window.last {
        let target = u32_at(table, OMAP.width * i + 4) as u64;
        if target < best.target {
            best = better(window, table, i, from, target, best);
            if best.target <= from {
                return Some(best);
            }
        }
    }
    if best.target < end { Some(best) } else { None }
}
