// A frame, and the frame at a place of one table.
ghost use Rattle.std.specs.Prelude.{◌≡◌, ◌/◌, ◌<◌, length};
ghost use Rattle.framedata.specs.Records.{old_record, new_record};
ghost use Rattle.framedata.specs.Frame.{told_old, from_new, told_frame, told_decoded, told_framed};
ghost use Rattle.framedata.specs.Frame.{old_frame_spec, new_frame_spec};

use crate::attributes::{Attributes, FrameType};
use lent::{NEW_FRAMES, OLD_FRAMES, SumRefusal};

// Frame data for a code block.
#[derive(Clone, Copy, Debug, PartialEq, Eq)]
pub struct FrameData {
    // Compiler-specific frame type.
    pub ty: FrameType,
    // Relative virtual address of the start of the code block, internal to the PDB.
    pub code_start: u32,
    // Size of the code block covered by this frame data in bytes.
    pub code_size: u32,
    // Size of local variables pushed on the stack in bytes.
    pub locals_size: u32,
    // Size of parameters pushed on the stack in bytes.
    pub params_size: u32,
    // Number of bytes of prologue code in the block.
    pub prolog_size: u16,
    // Size of saved registers pushed on the stack in bytes.
    pub saved_regs_size: u16,
    // The maximum number of bytes pushed on the stack.
    pub max_stack_size: Option<u32>,
    // Indicates that structured exception handling is in effect.
    pub has_structured_eh: bool,
    // Indicates that C++ exception handling is in effect.
    pub has_cpp_eh: bool,
    // Indicates that this frame is the start of a function.
    pub is_function_start: bool,
    // Indicates that this function uses the EBP register.
    pub uses_base_pointer: bool,
    // A program string that allows to reconstruct register values for this frame, by its offset in the string table.
    pub program: Option<u32>,
}

// The frame of an old record, unless its locals are too large.
#[tactic(auto, unfolding(crate::specs::Frame::from_old), using(crate::proofs::Bits::few_saved))]
pub(crate) fn old_frame(table: &[u8], place: usize) -> Result<FrameData, SumRefusal>
    requires { place < length table.now / 16 }
    ensures { told_decoded result ≡ told_old (old_record table.now place) }
{
    let at = OLD_FRAMES.width * place;
    let locals = lent::u32_at(table, at + 8);
    let params = lent::u16_at(table, at + 12);
    let attributes = Attributes::from(lent::u16_at(table, at + 14));
    Ok(FrameData {
        ty: attributes.ty,
        code_start: lent::u32_at(table, at),
        code_size: lent::u32_at(table, at + 4),
        locals_size: locals.checked_mul(4).ok_or(SumRefusal::TooLarge)?,
        params_size: u32::from(params) * 4,
        prolog_size: attributes.prolog_size,
        saved_regs_size: attributes.saved_regs * 4,
        max_stack_size: None,
        has_structured_eh: attributes.has_seh,
        has_cpp_eh: false,
        is_function_start: false,
        uses_base_pointer: attributes.uses_base_pointer,
        program: None,
    })
}

// The frame of a new record.
#[tactic(auto, unfolding(crate::specs::Frame::from_new))]
pub(crate) fn new_frame(table: &[u8], place: usize) -> FrameData
    requires { place < length table.now / 32 }
    ensures { told_frame result ≡ from_new (new_record table.now place) }
{
    let at = NEW_FRAMES.width * place;
    let flags = lent::u32_at(table, at + 28);
    FrameData {
        ty: FrameType::FrameData,
        code_start: lent::u32_at(table, at),
        code_size: lent::u32_at(table, at + 4),
        locals_size: lent::u32_at(table, at + 8),
        params_size: lent::u32_at(table, at + 12),
        prolog_size: lent::u16_at(table, at + 24),
        saved_regs_size: lent::u16_at(table, at + 26),
        max_stack_size: Some(lent::u32_at(table, at + 16)),
        has_structured_eh: flags % 2 == 1,
        has_cpp_eh: flags / 2 % 2 == 1,
        is_function_start: flags / 4 % 2 == 1,
        uses_base_pointer: false,
        program: Some(lent::u32_at(table, at + 20)),
    }
}

// The frame at a place of the old table, none at or past its end. It and the next differ in how a record is read: a
// trait over the kind, with a ghost member for what its record gives, would be longer than both.
#[tactic(auto, unfolding(crate::specs::Frame::old_frame_spec))]
pub fn old_frame_at(table: &[u8], place: usize) -> Result<Option<FrameData>, SumRefusal>
    ensures { told_framed result ≡ old_frame_spec table.now place }
{
    if OLD_FRAMES.has(table, place)? {
        Ok(Some(old_frame(table, place)?))
    } else {
        Ok(None)
    }
}

// The frame at a place of the new table, none at or past its end.
#[tactic(auto, unfolding(crate::specs::Frame::new_frame_spec))]
pub fn new_frame_at(table: &[u8], place: usize) -> Result<Option<FrameData>, SumRefusal>
    ensures { told_framed result ≡ new_frame_spec table.now place }
{
    if NEW_FRAMES.has(table, place)? {
        Ok(Some(new_frame(table, place)))
    } else {
        Ok(None)
    }
}
