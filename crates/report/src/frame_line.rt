// The line of a frame, in columns.
ghost use Rattle.std.specs.Prelude.{◌≡◌, ◌∷◌, [], ◌+◌, ◌≤◌, length};
ghost use Rattle.framedata.specs.Attributes.{type_number};
ghost use Rattle.framedata.specs.Frame.{told_optional, told_frame};
ghost use Rattle.report.specs.Page.{HasRoom, Put};
ghost use Rattle.report.specs.Text.{line};
ghost use Rattle.report.specs.Frames.{padded, columns, type_name, optional, flag, flags};
ghost use Rattle.report.specs.Frames.{size_columns, frame_line};

use crate::page::Page;
use framedata::{FrameData, FrameType};

// The columns of the sizes.
fn sizes(f: FrameData, page: &mut Page)
    requires { HasRoom 49 page.old }
    ensures wrote { Put (columns (size_columns (told_frame f))) page.old page.new }
    ensures value { page.new.at ≡ page.old.at + 49 }
{
    page.hex(f.code_start, 8, b" ");
    page.hex(f.code_size, 8, b" ");
    page.hex(f.locals_size, 8, b" ");
    page.hex(f.params_size, 8, b" ");
    page.hex(u32::from(f.prolog_size), 4, b"   ");
    page.hex(u32::from(f.saved_regs_size), 4, b"  ");
}

// The column of a number that may be missing.
fn optional(n: Option<u32>, page: &mut Page)
    requires { HasRoom 9 page.old }
    ensures wrote { Put (columns (optional (told_optional n) ∷ [])) page.old page.new }
    ensures value { page.new.at ≡ page.old.at + 9 }
{
    match n {
        Some(n) => page.hex(n, 8, b" "),
        None => page.put(b"-------- "),
    }
}

// The column of the type.
#[tactic(auto, unfolding(crate::specs::Frames::type_name))]
fn type_column(ty: FrameType) -> &'static [u8]
    ensures wrote { result.now ≡ columns (padded 5 (type_name (type_number ty)) ∷ []) }
    ensures upper_bound { length result.now ≤ 8 }
{
    match ty {
        FrameType::FPO => b"fpo   ",
        FrameType::Trap => b"trap  ",
        FrameType::TSS => b"tss   ",
        FrameType::Standard => b"std   ",
        FrameType::FrameData => b"fdata ",
        FrameType::Unknown => b"unknown ",
    }
}

// A flag's letter, or `-` where it is not set.
fn letter(on: bool, letter: u8) -> u8
    ensures { result ≡ flag on letter }
{
    if on { letter } else { b'-' }
}

// The flags, and the end of the line.
fn letters(f: FrameData, page: &mut Page)
    requires { HasRoom 5 page.old }
    ensures wrote { Put (line (flags (told_frame f))) page.old page.new }
    ensures value { page.new.at ≡ page.old.at + 5 }
{
    page.put(&[
        letter(f.has_structured_eh, b's'),
        letter(f.has_cpp_eh, b'c'),
        letter(f.is_function_start, b'f'),
        letter(f.uses_base_pointer, b'b'),
        b'\n',
    ]);
}

// A frame on a line.
pub(crate) fn frame_line(f: FrameData, page: &mut Page)
    requires { HasRoom 80 page.old }
    ensures wrote { Put (frame_line (told_frame f)) page.old page.new }
    ensures upper_bound { page.new.at ≤ page.old.at + 80 }
{
    sizes(f, page);
    optional(f.max_stack_size, page);
    optional(f.program, page);
    page.put(type_column(f.ty));
    letters(f, page);
}
