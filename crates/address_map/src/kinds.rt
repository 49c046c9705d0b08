// What the two kinds of address have in common, and the two kinds of offset: a plain number, and a plain place.
ghost use Rattle.std.specs.Prelude.{◌≡◌, ℕ};
ghost use Rattle.address_map.specs.Sections.{Offset};
ghost use Rattle.address_map.specs.Told.{rva_of, internal_rva_of, offset_of, internal_offset_of};

use crate::sections::Offset;
use crate::{PdbInternalRva, PdbInternalSectionOffset, Rva, SectionOffset};

// An address of one side.
pub trait Address: Copy {
    ghost address_of: { Self → ℕ };

    fn address(self) -> u32
        ensures { result ≡ address_of self };
}

impl Address for Rva {
    ghost address_of = { rva_of };

    fn address(self) -> u32 {
        let Rva(address) = self;
        address
    }
}

impl Address for PdbInternalRva {
    ghost address_of = { internal_rva_of };

    fn address(self) -> u32 {
        let PdbInternalRva(address) = self;
        address
    }
}

// An offset in a section of one side.
pub trait Place: Copy {
    ghost place_of: { Self → Offset };

    fn place(self) -> Offset
        ensures { result ≡ place_of self };
}

impl Place for SectionOffset {
    ghost place_of = { offset_of };

    fn place(self) -> Offset {
        let SectionOffset { section, offset } = self;
        Offset { section, offset }
    }
}

impl Place for PdbInternalSectionOffset {
    ghost place_of = { internal_offset_of };

    fn place(self) -> Offset {
        let PdbInternalSectionOffset { section, offset } = self;
        Offset { section, offset }
    }
}

impl From<Offset> for SectionOffset {
    ghost from_gives = { λ place o. offset_of o ≡ place };

    fn from(place: Offset) -> SectionOffset {
        let Offset { section, offset } = place;
        SectionOffset { section, offset }
    }
}

impl From<Offset> for PdbInternalSectionOffset {
    ghost from_gives = { λ place o. internal_offset_of o ≡ place };

    fn from(place: Offset) -> PdbInternalSectionOffset {
        let Offset { section, offset } = place;
        PdbInternalSectionOffset { section, offset }
    }
}
