// A window's pieces into a list of records. The table has its mark beside it: C has no Option.
ghost use Rattle.std.specs.Prelude.{◌≡◌, length};
ghost use Rattle.omap.specs.Output.{window_spec};
ghost use Rattle.ranges.specs.ListOut.{list_out};
ghost use Rattle.gillacorn.specs.Windows.{pieces_answer};

use crate::windows::{PiecesAnswer, pieces_answer};
use lent::if_present;
use ranges::Piece;

#[tactic(auto, unfolding(omap::specs::Output::window_fault, omap::specs::Output::window_spec, ranges::specs::ListOut::list_out,))]
pub fn gillacorn_list(
    present: bool,
    table: &[u8],
    a: u32,
    b: u32,
    list: &mut [Piece],
) -> PiecesAnswer
    ensures { (result ≡ pieces_answer (window_spec present table.now a b (length list.old)))
        × (list.new ≡ list_out present table.now a b list.old) }
{
    pieces_answer(ranges::list(if_present(present, table), a, b, list))
}
