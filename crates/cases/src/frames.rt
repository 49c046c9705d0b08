// Frames. Types: 0 FPO, 3 Standard, 4 FrameData.
ghost use Rattle.std.specs.Prelude.{◌≡◌, ◌∷◌, []};
ghost use Rattle.framedata.specs.Step.{step_spec};
ghost use Rattle.framedata.specs.Start.{start_spec};
ghost use Rattle.gillacorn.specs.Frames.{frame_step_answer, frame_cursor_answer};
ghost use Rattle.cases.specs.Brief.{brief};

use check::expect;
use framedata::FrameCursor;
use gillacorn::frames::{gillacorn_frame_next, gillacorn_frames_at, gillacorn_old_frame};

// The step from the indexes i, j: the code, the frame's type and start, and the next indexes. They are
// no cursors here, since the case that is required names each number.
fn yields(
    old: &[u8],
    new: &[u8],
    i: usize,
    j: usize,
    code: u32,
    ty: u32,
    start: u32,
    k: usize,
    l: usize,
)
    requires { brief (frame_step_answer (step_spec old.now new.now (record { old_index = i; new_index = j }))) ≡ code ∷ ty ∷ start ∷ k ∷ l ∷ [] }
{
    let cursor = FrameCursor {
        old_index: i,
        new_index: j,
    };
    let told = gillacorn_frame_next(cursor, true, old, true, new);
    let frame = told.frame;
    let next = told.cursor;
    expect(told.code == code);
    expect(frame.ty == ty);
    expect(frame.code_start == start);
    expect(next.old_index == k);
    expect(next.new_index == l);
}

// The indexes that an iteration from an address starts with.
fn begins(old: &[u8], new: &[u8], address: u32, i: usize, j: usize)
    requires { frame_cursor_answer (start_spec address old.now new.now) ≡ record { code = 0; cursor = record { old_index = i; new_index = j } } }
{
    let told = gillacorn_frames_at(address, true, old, true, new);
    let cursor = told.cursor;
    expect(told.code == 0);
    expect(cursor.old_index == i);
    expect(cursor.new_index == j);
}

#[tactic(auto, unfolding(crate::proofs::Opened::frames))]
pub(crate) fn merged() {
    // new at 100, 200, old at 100, 180: new 100, old 180, new 200, and the end
    let old = b"\x00\x01\0\0\0\0\0\0\0\0\0\0\0\0\0\0\x80\x01\0\0\0\0\0\0\0\0\0\0\0\0\0\0";
    let new = b"\x00\x01\0\0\0\0\0\0\0\0\0\0\0\0\0\0\0\0\0\0\0\0\0\0\0\0\0\0\0\0\0\0\
        \x00\x02\0\0\0\0\0\0\0\0\0\0\0\0\0\0\0\0\0\0\0\0\0\0\0\0\0\0\0\0\0\0";
    yields(old, new, 0, 0, 0, 4, 0x100, 1, 1);
    yields(old, new, 1, 1, 0, 0, 0x180, 2, 1);
    yields(old, new, 2, 1, 0, 4, 0x200, 2, 2);
    yields(old, new, 2, 2, 255, 0, 0, 2, 2);
    // new 100, 100 with old 100: both new
    let old = b"\x00\x01\0\0\0\0\0\0\0\0\0\0\0\0\0\0";
    let new = b"\x00\x01\0\0\0\0\0\0\0\0\0\0\0\0\0\0\0\0\0\0\0\0\0\0\0\0\0\0\0\0\0\0\
        \x00\x01\0\0\0\0\0\0\0\0\0\0\0\0\0\0\0\0\0\0\0\0\0\0\0\0\0\0\0\0\0\0";
    yields(old, new, 0, 0, 0, 4, 0x100, 1, 1);
    yields(old, new, 1, 1, 0, 4, 0x100, 1, 2);
    yields(old, new, 1, 2, 255, 0, 0, 1, 2);
}

#[tactic(auto, unfolding(crate::proofs::Opened::frames))]
pub(crate) fn begun() {
    // 100 size 40, then 200, as old frames and as new ones: at 150 with 200, at 13F with 100
    let none = b"";
    let old = b"\x00\x01\0\0\x40\0\0\0\0\0\0\0\0\0\0\0\x00\x02\0\0\0\0\0\0\0\0\0\0\0\0\0\0";
    let new = b"\x00\x01\0\0\x40\0\0\0\0\0\0\0\0\0\0\0\0\0\0\0\0\0\0\0\0\0\0\0\0\0\0\0\
        \x00\x02\0\0\0\0\0\0\0\0\0\0\0\0\0\0\0\0\0\0\0\0\0\0\0\0\0\0\0\0\0\0";
    begins(old, none, 0x150, 1, 0);
    yields(old, none, 1, 0, 0, 0, 0x200, 2, 0);
    begins(old, none, 0x13F, 0, 0);
    yields(old, none, 0, 0, 0, 0, 0x100, 1, 0);
    begins(none, new, 0x150, 0, 1);
    yields(none, new, 0, 1, 0, 4, 0x200, 0, 2);
    begins(none, new, 0x13F, 0, 0);
    yields(none, new, 0, 0, 0, 4, 0x100, 0, 1);
}

// Attributes C305: Standard, prolog 5, saved 12, SEH, no base pointer.
#[tactic(auto, unfolding(crate::proofs::Opened::frames))]
pub(crate) fn attributes() {
    let told = gillacorn_old_frame(b"\0\0\0\0\0\0\0\0\0\0\0\0\0\0\x05\xC3", 0);
    let frame = told.frame;
    expect(told.code == 0);
    expect(frame.ty == 3);
    expect(frame.prolog_size == 5);
    expect(frame.saved_regs_size == 12);
    expect(frame.has_structured_eh);
    expect(!frame.uses_base_pointer);
}
