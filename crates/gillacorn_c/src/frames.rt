// Frames, one by one and merged. C has no Option: a table that may be missing is a mark and bytes.
ghost use Rattle.std.specs.Prelude.{◌≡◌};
ghost use Rattle.lent.specs.Table.{if_present};
ghost use Rattle.framedata.specs.Frame.{old_frame_spec, new_frame_spec};
ghost use Rattle.framedata.specs.Step.{step_spec};
ghost use Rattle.framedata.specs.Start.{start_spec};
ghost use Rattle.framedata.specs.Tables.{empty_spec};
ghost use Rattle.gillacorn.specs.Frames.{frame_answer, frame_cursor_answer, frame_step_answer, yes_answer};

use framedata::FrameCursor;
use gillacorn::code::ValueAnswer;
use gillacorn::frames::{FrameAnswer, FrameCursorAnswer, FrameStepAnswer};

#[unsafe(no_mangle)]
pub extern "C" fn gillacorn_old_frame(table: &[u8], place: usize) -> FrameAnswer
    ensures { result ≡ frame_answer (old_frame_spec table.now place) }
{
    gillacorn::frames::gillacorn_old_frame(table, place)
}

#[unsafe(no_mangle)]
pub extern "C" fn gillacorn_new_frame(table: &[u8], place: usize) -> FrameAnswer
    ensures { result ≡ frame_answer (new_frame_spec table.now place) }
{
    gillacorn::frames::gillacorn_new_frame(table, place)
}

#[unsafe(no_mangle)]
pub extern "C" fn gillacorn_frame_next(
    cursor: FrameCursor,
    has_old: bool,
    old_frames: &[u8],
    has_new: bool,
    new_frames: &[u8],
) -> FrameStepAnswer
    ensures { result ≡ frame_step_answer (step_spec (if_present has_old old_frames.now)
        (if_present has_new new_frames.now) cursor) }
{
    gillacorn::frames::gillacorn_frame_next(cursor, has_old, old_frames, has_new, new_frames)
}

#[unsafe(no_mangle)]
pub extern "C" fn gillacorn_frames_at(
    address: u32,
    has_old: bool,
    old_frames: &[u8],
    has_new: bool,
    new_frames: &[u8],
) -> FrameCursorAnswer
    ensures { result ≡ frame_cursor_answer (start_spec address (if_present has_old old_frames.now)
        (if_present has_new new_frames.now)) }
{
    gillacorn::frames::gillacorn_frames_at(address, has_old, old_frames, has_new, new_frames)
}

#[unsafe(no_mangle)]
pub extern "C" fn gillacorn_frames_empty(
    has_old: bool,
    old_frames: &[u8],
    has_new: bool,
    new_frames: &[u8],
) -> ValueAnswer
    ensures { result ≡ yes_answer (empty_spec (if_present has_old old_frames.now) (if_present has_new new_frames.now)) }
{
    gillacorn::frames::gillacorn_frames_empty(has_old, old_frames, has_new, new_frames)
}
