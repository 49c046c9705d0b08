// A window's pieces into a list of records. C has no Option: a table that may be missing is a mark and bytes.
ghost use Rattle.std.specs.Prelude.{◌≡◌, length};
ghost use Rattle.omap.specs.Output.{window_spec};
ghost use Rattle.ranges.specs.ListOut.{list_out};
ghost use Rattle.gillacorn.specs.Windows.{pieces_answer};

use gillacorn::windows::PiecesAnswer;
use ranges::Piece;

#[unsafe(no_mangle)]
pub extern "C" fn gillacorn_list(
    present: bool,
    table: &[u8],
    a: u32,
    b: u32,
    list: &mut [Piece],
) -> PiecesAnswer
    ensures { (result ≡ pieces_answer (window_spec present table.now a b (length list.old)))
        × (list.new ≡ list_out present table.now a b list.old) }
{
    gillacorn::lists::gillacorn_list(present, table, a, b, list)
}
