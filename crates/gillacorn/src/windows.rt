// OMAP tables: the pieces of a window, and cursors over them. The table has its mark beside it: C has no Option.
ghost use Rattle.std.specs.Prelude.{◌≡◌, ◌/◌, length};
ghost use Rattle.lent.specs.Paper.{number, told_value};
ghost use Rattle.omap.specs.Output.{told_windowed, window_spec, window_out};
ghost use Rattle.omap.specs.Step.{start_spec, told_step, step_spec};
ghost use Rattle.gillacorn.specs.Windows.{pieces_answer, cursor_answer, step_answer};

use crate::code::{coded, coded_value};
use lent::{Refusal, if_present};
use omap::cursor::{Cursor, Step};
use omap::piece::Range;
use omap::windows::WindowRefusal;

#[repr(C)]
#[derive(Clone, Copy)]
pub struct PiecesAnswer {
    pub code: u32,
    pub pieces: usize,
}

#[repr(C)]
#[derive(Clone, Copy)]
pub struct CursorAnswer {
    pub code: u32,
    pub cursor: Cursor,
}

#[repr(C)]
#[derive(Clone, Copy)]
pub struct StepAnswer {
    pub code: u32,
    pub start: u32,
    pub end: u32,
    pub cursor: Cursor,
}

// Refusal 5 has its number in an enum of its operation, here as for a bundle: a trait for both would be longer.
pub fn pieces_answer(answer: Result<usize, WindowRefusal>) -> PiecesAnswer
    ensures { result ≡ pieces_answer (told_windowed answer) }
{
    let needed = match answer {
        Err(WindowRefusal::Short(pieces)) => pieces,
        _ => 0,
    };
    let (code, pieces) = coded_value(answer, needed);
    PiecesAnswer { code, pieces }
}

fn cursor_answer(answer: Result<Cursor, Refusal>) -> CursorAnswer
    ensures { result ≡ cursor_answer (told_value number answer) }
{
    // A Default would be a public function of omap for C's zeros alone.
    let none = Cursor {
        address: 0,
        end: 0,
        source: 0,
        target: 0,
        place: 0,
    };
    let (code, cursor) = coded_value(answer, none);
    CursorAnswer { code, cursor }
}

fn step_answer(step: Step) -> StepAnswer
    ensures { result ≡ step_answer (told_step step) }
{
    let (code, Range { start, end }) = coded(step.answer, Range { start: 0, end: 0 });
    StepAnswer {
        code,
        start,
        end,
        cursor: step.cursor,
    }
}

#[tactic(auto, unfolding(omap::specs::Output::window_fault, omap::specs::Output::window_spec, omap::specs::Output::window_out,))]
pub fn gillacorn_window(
    present: bool,
    table: &[u8],
    a: u32,
    b: u32,
    out: &mut [u32],
) -> PiecesAnswer
    ensures { (result ≡ pieces_answer (window_spec present table.now a b (length out.old / 2)))
        × (out.new ≡ window_out present table.now a b out.old) }
{
    pieces_answer(omap::windows::window(if_present(present, table), a, b, out))
}

#[tactic(auto, unfolding(omap::specs::Step::start_spec))]
pub fn gillacorn_cursor_start(present: bool, table: &[u8], a: u32, b: u32) -> CursorAnswer
    ensures { result ≡ cursor_answer (start_spec present table.now a b) }
{
    cursor_answer(Cursor::start(if_present(present, table), a, b))
}

#[tactic(auto, unfolding(omap::specs::Step::step_spec))]
pub fn gillacorn_cursor_step(cursor: Cursor, present: bool, table: &[u8]) -> StepAnswer
    ensures { result ≡ step_answer (step_spec present table.now cursor) }
{
    step_answer(cursor.step(if_present(present, table)))
}
