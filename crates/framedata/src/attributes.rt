// The attributes of an old frame: what the bits of one u16 say. The bits are decided here, and nowhere else.
ghost use Rattle.std.specs.Prelude.{◌≡◌, ◌/◌};
ghost use Rattle.framedata.specs.Attributes.{type_number, attributes, told_attributes};

// A compiler specific frame type, as the old table has it; program strings have superseded it.
// Each has the number that the Rust gives it.
#[derive(Clone, Copy, Debug, PartialEq, Eq)]
pub enum FrameType {
    // Frame which does not have any debug info.
    Unknown = 255,
    // Frame pointer omitted, FPO info available.
    FPO = 0,
    // Kernel Trap frame.
    Trap = 1,
    // Kernel Trap frame.
    TSS = 2,
    // Standard EBP stackframe.
    Standard = 3,
    // Frame pointer omitted, FrameData info available.
    FrameData = 4,
}

#[derive(Clone, Copy)]
pub struct Attributes {
    pub ty: FrameType,
    // Number of bytes of prologue code.
    pub prolog_size: u16,
    // Number of saved registers.
    pub saved_regs: u16,
    pub has_seh: bool,
    pub uses_base_pointer: bool,
}

// The type that the top two bits give: `Unknown` and `FrameData` have no such number.
fn frame_type(attributes: u16) -> FrameType
    ensures { type_number result ≡ attributes / 16384 }
{
    match attributes / 16384 {
        0 => FrameType::FPO,
        1 => FrameType::Trap,
        2 => FrameType::TSS,
        _ => FrameType::Standard,
    }
}

// The attributes by the masks of pdb: a bit is a division and a remainder, as in specs/, and no plainer by a function.
impl From<u16> for Attributes {
    ghost from_gives = { λ word read. told_attributes read ≡ attributes word };

    #[tactic(auto, unfolding(crate::specs::Attributes::attributes))]
    fn from(word: u16) -> Attributes {
        Attributes {
            ty: frame_type(word),
            prolog_size: word % 16,
            saved_regs: word / 256 % 8,
            has_seh: word / 512 % 2 == 1,
            uses_base_pointer: word / 1024 % 2 == 1,
        }
    }
}
