// Frames, one by one and merged. A table or a number that may be missing has its mark beside it: C has no Option.
ghost use Rattle.std.specs.Prelude.{◌≡◌};
ghost use Rattle.lent.specs.Paper.{number, told_value};
ghost use Rattle.lent.specs.Table.{bytes_of, if_present};
ghost use Rattle.framedata.specs.Frame.{told_frame, told_framed, old_frame_spec, new_frame_spec};
ghost use Rattle.framedata.specs.Step.{told_step, step_spec};
ghost use Rattle.framedata.specs.Start.{start_spec};
ghost use Rattle.framedata.specs.Tables.{empty_spec};
ghost use Rattle.gillacorn.specs.Frames.{frame_shown, frame_answer, frame_cursor_answer, frame_step_answer, yes_answer};

use crate::code::{ValueAnswer, coded, coded_value};
use framedata::{FrameCursor, FrameData, FrameStep, FrameTable};
use lent::{Refusal, SumRefusal};

// Its default, all zeros, stands where there is no frame to give.
#[repr(C)]
#[derive(Clone, Copy, Default)]
pub struct Frame {
    pub ty: u32,
    pub code_start: u32,
    pub code_size: u32,
    pub locals_size: u32,
    pub params_size: u32,
    pub prolog_size: u16,
    pub saved_regs_size: u16,
    pub has_structured_eh: bool,
    pub has_cpp_eh: bool,
    pub is_function_start: bool,
    pub uses_base_pointer: bool,
    pub has_max_stack_size: bool,
    pub has_program: bool,
    pub max_stack_size: u32,
    pub program: u32,
}

#[repr(C)]
#[derive(Clone, Copy)]
pub struct FrameAnswer {
    pub code: u32,
    pub frame: Frame,
}

#[repr(C)]
#[derive(Clone, Copy)]
pub struct FrameCursorAnswer {
    pub code: u32,
    pub cursor: FrameCursor,
}

#[repr(C)]
#[derive(Clone, Copy)]
pub struct FrameStepAnswer {
    pub code: u32,
    pub frame: Frame,
    pub cursor: FrameCursor,
}

fn frame_shown(frame: FrameData) -> Frame
    ensures { result ≡ frame_shown (told_frame frame) }
{
    Frame {
        ty: frame.ty as u32,
        code_start: frame.code_start,
        code_size: frame.code_size,
        locals_size: frame.locals_size,
        params_size: frame.params_size,
        prolog_size: frame.prolog_size,
        saved_regs_size: frame.saved_regs_size,
        has_structured_eh: frame.has_structured_eh,
        has_cpp_eh: frame.has_cpp_eh,
        is_function_start: frame.is_function_start,
        uses_base_pointer: frame.uses_base_pointer,
        has_max_stack_size: frame.max_stack_size.is_some(),
        has_program: frame.program.is_some(),
        max_stack_size: frame.max_stack_size.unwrap_or(0),
        program: frame.program.unwrap_or(0),
    }
}

fn frame_answer(answer: Result<Option<FrameData>, SumRefusal>) -> FrameAnswer
    ensures { result ≡ frame_answer (told_framed answer) }
{
    let shown = answer.map(|found| found.map(frame_shown));
    let (code, frame) = coded(shown, Frame::default());
    FrameAnswer { code, frame }
}

fn frame_step_answer(step: FrameStep) -> FrameStepAnswer
    ensures { result ≡ frame_step_answer (told_step step) }
{
    let FrameAnswer { code, frame } = frame_answer(step.answer);
    FrameStepAnswer {
        code,
        frame,
        cursor: step.cursor,
    }
}

fn frame_cursor_answer(answer: Result<FrameCursor, Refusal>) -> FrameCursorAnswer
    ensures { result ≡ frame_cursor_answer (told_value number answer) }
{
    let (code, cursor) = coded_value(answer, FrameCursor::new());
    FrameCursorAnswer { code, cursor }
}

fn yes_answer(answer: Result<bool, Refusal>) -> ValueAnswer
    ensures { result ≡ yes_answer (told_value number answer) }
{
    let (code, value) = coded_value(answer.map(u32::from), 0);
    ValueAnswer { code, value }
}

// The two tables behind their marks.
fn frame_table<'t>(
    has_old: bool,
    old_frames: &'t [u8],
    has_new: bool,
    new_frames: &'t [u8],
) -> FrameTable<'t>
    ensures old { bytes_of result.old ≡ if_present has_old old_frames.now }
    ensures new { bytes_of result.new ≡ if_present has_new new_frames.now }
{
    FrameTable {
        old: lent::if_present(has_old, old_frames),
        new: lent::if_present(has_new, new_frames),
    }
}

pub fn gillacorn_old_frame(table: &[u8], place: usize) -> FrameAnswer
    ensures { result ≡ frame_answer (old_frame_spec table.now place) }
{
    frame_answer(framedata::old_frame_at(table, place))
}

pub fn gillacorn_new_frame(table: &[u8], place: usize) -> FrameAnswer
    ensures { result ≡ frame_answer (new_frame_spec table.now place) }
{
    frame_answer(framedata::new_frame_at(table, place))
}

pub fn gillacorn_frame_next(
    cursor: FrameCursor,
    has_old: bool,
    old_frames: &[u8],
    has_new: bool,
    new_frames: &[u8],
) -> FrameStepAnswer
    ensures { result ≡ frame_step_answer (step_spec (if_present has_old old_frames.now)
        (if_present has_new new_frames.now) cursor) }
{
    frame_step_answer(cursor.step(frame_table(has_old, old_frames, has_new, new_frames)))
}

pub fn gillacorn_frames_at(
    address: u32,
    has_old: bool,
    old_frames: &[u8],
    has_new: bool,
    new_frames: &[u8],
) -> FrameCursorAnswer
    ensures { result ≡ frame_cursor_answer (start_spec address (if_present has_old old_frames.now)
        (if_present has_new new_frames.now)) }
{
    frame_cursor_answer(frame_table(has_old, old_frames, has_new, new_frames).start_at(address))
}

pub fn gillacorn_frames_empty(
    has_old: bool,
    old_frames: &[u8],
    has_new: bool,
    new_frames: &[u8],
) -> ValueAnswer
    ensures { result ≡ yes_answer (empty_spec (if_present has_old old_frames.now) (if_present has_new new_frames.now)) }
{
    yes_answer(frame_table(has_old, old_frames, has_new, new_frames).is_empty())
}
