// What a section holds and how it is used: the flags of a section header, in the order of the Rust.
ghost use Rattle.std.specs.Prelude.{◌≡◌, ◌<◌};
ghost use Rattle.pe.specs.Flags.{image_scn_cnt_code, image_scn_cnt_initialized_data, image_scn_cnt_uninitialized_data, image_scn_lnk_other};
ghost use Rattle.pe.specs.Flags.{image_scn_lnk_info, image_scn_lnk_remove, image_scn_lnk_comdat};
ghost use Rattle.pe.specs.Flags.{image_scn_no_defer_spec_exc, image_scn_gprel};
ghost use Rattle.pe.specs.Flags.{image_scn_mem_purgeable, image_scn_mem_locked, image_scn_mem_preload, image_scn_lnk_nreloc_ovfl};
ghost use Rattle.pe.specs.Flags.{image_scn_mem_discardable, image_scn_mem_not_cached, image_scn_mem_not_paged};
ghost use Rattle.pe.specs.Flags.{image_scn_mem_shared, image_scn_mem_execute, image_scn_mem_read, image_scn_mem_write};
ghost use Rattle.lent.specs.Words.{is_set};
ghost use Rattle.pe.specs.Flags.{alignment_spec, has, told_alignment};

const IMAGE_SCN_TYPE_NO_PAD: u32 = 0x00000008;

const IMAGE_SCN_CNT_CODE: u32 = 0x00000020;

const IMAGE_SCN_CNT_INITIALIZED_DATA: u32 = 0x00000040;

const IMAGE_SCN_CNT_UNINITIALIZED_DATA: u32 = 0x00000080;

const IMAGE_SCN_LNK_OTHER: u32 = 0x00000100;

const IMAGE_SCN_LNK_INFO: u32 = 0x00000200;

const IMAGE_SCN_LNK_REMOVE: u32 = 0x00000800;

const IMAGE_SCN_LNK_COMDAT: u32 = 0x00001000;

const IMAGE_SCN_NO_DEFER_SPEC_EXC: u32 = 0x00004000;

const IMAGE_SCN_GPREL: u32 = 0x00008000;

const IMAGE_SCN_MEM_PURGEABLE: u32 = 0x00020000;

const IMAGE_SCN_MEM_LOCKED: u32 = 0x00040000;

const IMAGE_SCN_MEM_PRELOAD: u32 = 0x00080000;

const IMAGE_SCN_LNK_NRELOC_OVFL: u32 = 0x01000000;

const IMAGE_SCN_MEM_DISCARDABLE: u32 = 0x02000000;

const IMAGE_SCN_MEM_NOT_CACHED: u32 = 0x04000000;

const IMAGE_SCN_MEM_NOT_PAGED: u32 = 0x08000000;

const IMAGE_SCN_MEM_SHARED: u32 = 0x10000000;

const IMAGE_SCN_MEM_EXECUTE: u32 = 0x20000000;

const IMAGE_SCN_MEM_READ: u32 = 0x40000000;

const IMAGE_SCN_MEM_WRITE: u32 = 0x80000000;

// The lowest of the four bits that hold the alignment.
const IMAGE_SCN_ALIGN_1BYTES: u32 = 0x00100000;

// The flags of a section header, which winnt.h defines as `IMAGE_SCN_` constants.
#[repr(C)]
#[derive(Clone, Copy)]
pub struct SectionCharacteristics(pub u32);

// Whether the one bit that `bit` has is set in `x`. It compiles to a test with a mask.
fn is_set(x: u32, bit: u32) -> bool
    requires { 0 < bit }
    ensures { result ≡ is_set bit x }
{
    x / bit % 2 == 1
}

// A method for each flag, by pdb's names: one with the flag as its argument would be no plainer for a caller.
impl SectionCharacteristics {
    // The section contains executable code.
    pub fn executable(self) -> bool
        ensures { result ≡ has image_scn_cnt_code self.0 }
    {
        is_set(self.0, IMAGE_SCN_CNT_CODE)
    }

    // The section contains initialized data.
    pub fn initialized_data(self) -> bool
        ensures { result ≡ has image_scn_cnt_initialized_data self.0 }
    {
        is_set(self.0, IMAGE_SCN_CNT_INITIALIZED_DATA)
    }

    // The section contains uninitialized data.
    pub fn uninitialized_data(self) -> bool
        ensures { result ≡ has image_scn_cnt_uninitialized_data self.0 }
    {
        is_set(self.0, IMAGE_SCN_CNT_UNINITIALIZED_DATA)
    }

    // Reserved.
    pub fn other(self) -> bool
        ensures { result ≡ has image_scn_lnk_other self.0 }
    {
        is_set(self.0, IMAGE_SCN_LNK_OTHER)
    }

    // The section contains comments or other information. Object files only.
    pub fn info(self) -> bool
        ensures { result ≡ has image_scn_lnk_info self.0 }
    {
        is_set(self.0, IMAGE_SCN_LNK_INFO)
    }

    // The section will not become part of the image. Object files only.
    pub fn remove(self) -> bool
        ensures { result ≡ has image_scn_lnk_remove self.0 }
    {
        is_set(self.0, IMAGE_SCN_LNK_REMOVE)
    }

    // The section contains COMDAT data. Object files only.
    pub fn comdat(self) -> bool
        ensures { result ≡ has image_scn_lnk_comdat self.0 }
    {
        is_set(self.0, IMAGE_SCN_LNK_COMDAT)
    }

    // Speculative exceptions handling bits in the TLB entries are reset for this section.
    pub fn defer_speculative_exceptions(self) -> bool
        ensures { result ≡ has image_scn_no_defer_spec_exc self.0 }
    {
        is_set(self.0, IMAGE_SCN_NO_DEFER_SPEC_EXC)
    }

    // The section contains data referenced through the global pointer.
    pub fn global_pointer_relative(self) -> bool
        ensures { result ≡ has image_scn_gprel self.0 }
    {
        is_set(self.0, IMAGE_SCN_GPREL)
    }

    // Reserved.
    pub fn purgeable(self) -> bool
        ensures { result ≡ has image_scn_mem_purgeable self.0 }
    {
        is_set(self.0, IMAGE_SCN_MEM_PURGEABLE)
    }

    // Reserved.
    pub fn locked(self) -> bool
        ensures { result ≡ has image_scn_mem_locked self.0 }
    {
        is_set(self.0, IMAGE_SCN_MEM_LOCKED)
    }

    // Reserved.
    pub fn preload(self) -> bool
        ensures { result ≡ has image_scn_mem_preload self.0 }
    {
        is_set(self.0, IMAGE_SCN_MEM_PRELOAD)
    }

    // The alignment of the section's data in bytes, where the flags specify one. Object files only.
    #[tactic(auto, unfolding(crate::specs::Flags::alignment_spec))]
    pub fn alignment(self) -> Option<u16>
        ensures { told_alignment result ≡ alignment_spec self.0 }
    {
        let n = self.0 / IMAGE_SCN_ALIGN_1BYTES % 16;
        match (is_set(self.0, IMAGE_SCN_TYPE_NO_PAD), n) {
            (true, 0) => Some(1),
            (false, 1..=14) => Some(1 << (n - 1)),
            _ => None,
        }
    }

    // The section contains extended relocations.
    pub fn lnk_nreloc_ovfl(self) -> bool
        ensures { result ≡ has image_scn_lnk_nreloc_ovfl self.0 }
    {
        is_set(self.0, IMAGE_SCN_LNK_NRELOC_OVFL)
    }

    // The section can be discarded as needed.
    pub fn discardable(self) -> bool
        ensures { result ≡ has image_scn_mem_discardable self.0 }
    {
        is_set(self.0, IMAGE_SCN_MEM_DISCARDABLE)
    }

    // The section cannot be cached.
    pub fn not_cached(self) -> bool
        ensures { result ≡ has image_scn_mem_not_cached self.0 }
    {
        is_set(self.0, IMAGE_SCN_MEM_NOT_CACHED)
    }

    // The section cannot be paged.
    pub fn not_paged(self) -> bool
        ensures { result ≡ has image_scn_mem_not_paged self.0 }
    {
        is_set(self.0, IMAGE_SCN_MEM_NOT_PAGED)
    }

    // The section can be shared in memory.
    pub fn shared(self) -> bool
        ensures { result ≡ has image_scn_mem_shared self.0 }
    {
        is_set(self.0, IMAGE_SCN_MEM_SHARED)
    }

    // The section can be executed as code.
    pub fn execute(self) -> bool
        ensures { result ≡ has image_scn_mem_execute self.0 }
    {
        is_set(self.0, IMAGE_SCN_MEM_EXECUTE)
    }

    // The section can be read.
    pub fn read(self) -> bool
        ensures { result ≡ has image_scn_mem_read self.0 }
    {
        is_set(self.0, IMAGE_SCN_MEM_READ)
    }

    // The section can be written to.
    pub fn write(self) -> bool
        ensures { result ≡ has image_scn_mem_write self.0 }
    {
        is_set(self.0, IMAGE_SCN_MEM_WRITE)
    }
}
