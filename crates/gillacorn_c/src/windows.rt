// OMAP tables: the pieces of a window, and cursors over them. C has no Option: a table that may be missing is a mark
// and bytes.
ghost use Rattle.std.specs.Prelude.{◌≡◌, ◌/◌, length};
ghost use Rattle.omap.specs.Output.{window_spec, window_out};
ghost use Rattle.omap.specs.Step.{start_spec, step_spec};
ghost use Rattle.gillacorn.specs.Windows.{pieces_answer, cursor_answer, step_answer};

use gillacorn::windows::{CursorAnswer, PiecesAnswer, StepAnswer};
use omap::cursor::Cursor;

#[unsafe(no_mangle)]
pub extern "C" fn gillacorn_window(
    present: bool,
    table: &[u8],
    a: u32,
    b: u32,
    out: &mut [u32],
) -> PiecesAnswer
    ensures { (result ≡ pieces_answer (window_spec present table.now a b (length out.old / 2)))
        × (out.new ≡ window_out present table.now a b out.old) }
{
    gillacorn::windows::gillacorn_window(present, table, a, b, out)
}

#[unsafe(no_mangle)]
pub extern "C" fn gillacorn_cursor_start(
    present: bool,
    table: &[u8],
    a: u32,
    b: u32,
) -> CursorAnswer
    ensures { result ≡ cursor_answer (start_spec present table.now a b) }
{
    gillacorn::windows::gillacorn_cursor_start(present, table, a, b)
}

#[unsafe(no_mangle)]
pub extern "C" fn gillacorn_cursor_step(cursor: Cursor, present: bool, table: &[u8]) -> StepAnswer
    ensures { result ≡ step_answer (step_spec present table.now cursor) }
{
    gillacorn::windows::gillacorn_cursor_step(cursor, present, table)
}
