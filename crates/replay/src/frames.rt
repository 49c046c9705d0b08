// Frames.
use crate::case::{Broken, Case, bits};
use framedata::FrameCursor;
use gillacorn::frames::{
    Frame, FrameAnswer, gillacorn_frame_next, gillacorn_frames_at, gillacorn_frames_empty,
};

// The record at a place of a table, by the face's function for its kind.
pub(crate) fn frame<F>(case: &mut Case<'_>, frame_at: F) -> Result<(), Broken>
where
    F: FnOnce(&[u8], usize) -> FrameAnswer,
    requires { F.IsAlwaysCallable frame_at }
{
    let table = case.present_table()?;
    let ours = frame_at(table, case.number()?);
    case.compare_byte(ours.code)?;
    compare_frame(case, ours.frame)
}

pub(crate) fn next(case: &mut Case<'_>) -> Result<(), Broken> {
    let (has_old, old) = case.table()?;
    let (has_new, new) = case.table()?;
    let cursor = FrameCursor {
        old_index: case.number()?,
        new_index: case.number()?,
    };
    let ours = gillacorn_frame_next(cursor, has_old, old, has_new, new);
    case.compare_byte(ours.code)?;
    compare_frame(case, ours.frame)?;
    case.compare_all(&[ours.cursor.old_index, ours.cursor.new_index])
}

pub(crate) fn from_address(case: &mut Case<'_>) -> Result<(), Broken> {
    let (has_old, old) = case.table()?;
    let (has_new, new) = case.table()?;
    let ours = gillacorn_frames_at(case.number()?, has_old, old, has_new, new);
    case.compare_byte(ours.code)?;
    case.compare_all(&[ours.cursor.old_index, ours.cursor.new_index])
}

pub(crate) fn empty(case: &mut Case<'_>) -> Result<(), Broken> {
    let (has_old, old) = case.table()?;
    let (has_new, new) = case.table()?;
    let ours = gillacorn_frames_empty(has_old, old, has_new, new);
    case.compare_byte(ours.code)?;
    case.compare(ours.value)
}

fn compare_frame(case: &mut Case<'_>, ours: Frame) -> Result<(), Broken> {
    let marks = [
        ours.has_structured_eh,
        ours.has_cpp_eh,
        ours.is_function_start,
        ours.uses_base_pointer,
        ours.has_max_stack_size,
        ours.has_program,
    ];
    case.compare_byte(ours.ty)?;
    case.compare_all(&[
        ours.code_start,
        ours.code_size,
        ours.locals_size,
        ours.params_size,
    ])?;
    case.compare_all(&[ours.prolog_size, ours.saved_regs_size])?;
    case.compare_byte(bits(&marks))?;
    case.compare_all(&[ours.max_stack_size, ours.program])
}
