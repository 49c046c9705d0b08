// The operations: their numbers in a replay, their names, and the functions that ask them.
use crate::addresses::{
    address_to_address, address_to_offset, offset_to_address, offset_to_offset,
};
use crate::case::{Broken, Case};
use crate::{addresses, clashes, frames, headers, lists, lookups, windows};
use gillacorn::addresses::{
    gillacorn_internal_offset_to_internal_rva, gillacorn_internal_offset_to_rva,
    gillacorn_internal_rva_to_rva, gillacorn_offset_to_internal_rva, gillacorn_offset_to_rva,
    gillacorn_rva_to_internal_rva,
};
use gillacorn::frames::{gillacorn_new_frame, gillacorn_old_frame};
use gillacorn::offsets::{
    gillacorn_internal_offset_to_section_offset_by, gillacorn_internal_rva_to_internal_offset_by,
    gillacorn_internal_rva_to_section_offset_by, gillacorn_offset_to_internal_offset_by,
    gillacorn_rva_to_internal_offset_by, gillacorn_rva_to_section_offset_by,
};
use std::fmt;

#[derive(Clone, Copy, Debug, PartialEq, Eq)]
pub enum Operation {
    Header = 1,
    Name = 2,
    Flags = 3,
    Alignment = 4,
    RecordAt = 5,
    Lookup = 6,
    Window = 7,
    CursorStart = 8,
    CursorStep = 9,
    List = 10,
    Clash = 11,
    WayBack = 12,
    SectionOffset = 13,
    VirtualAddress = 14,
    OldFrame = 15,
    NewFrame = 16,
    FrameNext = 17,
    FramesAt = 18,
    FramesEmpty = 19,
    RvaToInternalRva = 20,
    RvaToSectionOffset = 21,
    RvaToInternalOffset = 22,
    InternalRvaToRva = 23,
    InternalRvaToSectionOffset = 24,
    InternalRvaToInternalOffset = 25,
    OffsetToRva = 26,
    OffsetToInternalRva = 27,
    OffsetToInternalOffset = 28,
    InternalOffsetToRva = 29,
    InternalOffsetToInternalRva = 30,
    InternalOffsetToSectionOffset = 31,
    QuickLookup = 32,
}

impl Operation {
    pub const COUNT: usize = 32;

    pub const ALL: [Operation; Operation::COUNT] = [
        Operation::Header,
        Operation::Name,
        Operation::Flags,
        Operation::Alignment,
        Operation::RecordAt,
        Operation::Lookup,
        Operation::Window,
        Operation::CursorStart,
        Operation::CursorStep,
        Operation::List,
        Operation::Clash,
        Operation::WayBack,
        Operation::SectionOffset,
        Operation::VirtualAddress,
        Operation::OldFrame,
        Operation::NewFrame,
        Operation::FrameNext,
        Operation::FramesAt,
        Operation::FramesEmpty,
        Operation::RvaToInternalRva,
        Operation::RvaToSectionOffset,
        Operation::RvaToInternalOffset,
        Operation::InternalRvaToRva,
        Operation::InternalRvaToSectionOffset,
        Operation::InternalRvaToInternalOffset,
        Operation::OffsetToRva,
        Operation::OffsetToInternalRva,
        Operation::OffsetToInternalOffset,
        Operation::InternalOffsetToRva,
        Operation::InternalOffsetToInternalRva,
        Operation::InternalOffsetToSectionOffset,
        Operation::QuickLookup,
    ];

    fn name(self) -> &'static str {
        match self {
            Operation::Header => "header",
            Operation::Name => "name",
            Operation::Flags => "flags",
            Operation::Alignment => "alignment",
            Operation::RecordAt => "record_at",
            Operation::Lookup => "lookup",
            Operation::Window => "window",
            Operation::CursorStart => "cursor start",
            Operation::CursorStep => "cursor step",
            Operation::List => "list",
            Operation::Clash => "clash",
            Operation::WayBack => "way_back",
            Operation::SectionOffset => "section_offset",
            Operation::VirtualAddress => "virtual_address",
            Operation::OldFrame => "old frame",
            Operation::NewFrame => "new frame",
            Operation::FrameNext => "frame iteration",
            Operation::FramesAt => "frames from an address",
            Operation::FramesEmpty => "is_empty",
            Operation::RvaToInternalRva => "Rva::to_internal_rva",
            Operation::RvaToSectionOffset => "Rva::to_section_offset",
            Operation::RvaToInternalOffset => "Rva::to_internal_offset",
            Operation::InternalRvaToRva => "PdbInternalRva::to_rva",
            Operation::InternalRvaToSectionOffset => "PdbInternalRva::to_section_offset",
            Operation::InternalRvaToInternalOffset => "PdbInternalRva::to_internal_offset",
            Operation::OffsetToRva => "SectionOffset::to_rva",
            Operation::OffsetToInternalRva => "SectionOffset::to_internal_rva",
            Operation::OffsetToInternalOffset => "SectionOffset::to_internal_offset",
            Operation::InternalOffsetToRva => "PdbInternalSectionOffset::to_rva",
            Operation::InternalOffsetToInternalRva => "PdbInternalSectionOffset::to_internal_rva",
            Operation::InternalOffsetToSectionOffset => {
                "PdbInternalSectionOffset::to_section_offset"
            }
            Operation::QuickLookup => "quick_lookup",
        }
    }

    // Reads the question of a case, asks it, and compares our answer with the one in the case. A match and no table:
    // function pointers that are handed out are refused by `rt ci`.
    pub(crate) fn ask(self, case: &mut Case<'_>) -> Result<(), Broken> {
        match self {
            Operation::Header => headers::header(case),
            Operation::Name => headers::name(case),
            Operation::Flags => headers::flags(case),
            Operation::Alignment => headers::alignment(case),
            Operation::RecordAt => lookups::record_at(case),
            Operation::Lookup => lookups::lookup(case),
            Operation::Window => windows::window(case),
            Operation::CursorStart => windows::cursor_start(case),
            Operation::CursorStep => windows::cursor_step(case),
            Operation::List => lists::list(case),
            Operation::Clash => clashes::clash(case),
            Operation::WayBack => clashes::way_back(case),
            Operation::SectionOffset => addresses::section_offset(case),
            Operation::VirtualAddress => addresses::virtual_address(case),
            Operation::OldFrame => frames::frame(case, gillacorn_old_frame),
            Operation::NewFrame => frames::frame(case, gillacorn_new_frame),
            Operation::FrameNext => frames::next(case),
            Operation::FramesAt => frames::from_address(case),
            Operation::FramesEmpty => frames::empty(case),
            Operation::RvaToInternalRva => address_to_address(case, gillacorn_rva_to_internal_rva),
            Operation::RvaToSectionOffset => {
                address_to_offset(case, gillacorn_rva_to_section_offset_by)
            }
            Operation::RvaToInternalOffset => {
                address_to_offset(case, gillacorn_rva_to_internal_offset_by)
            }
            Operation::InternalRvaToRva => address_to_address(case, gillacorn_internal_rva_to_rva),
            Operation::InternalRvaToSectionOffset => {
                address_to_offset(case, gillacorn_internal_rva_to_section_offset_by)
            }
            Operation::InternalRvaToInternalOffset => {
                address_to_offset(case, gillacorn_internal_rva_to_internal_offset_by)
            }
            Operation::OffsetToRva => offset_to_address(case, gillacorn_offset_to_rva),
            Operation::OffsetToInternalRva => {
                offset_to_address(case, gillacorn_offset_to_internal_rva)
            }
            Operation::OffsetToInternalOffset => {
                offset_to_offset(case, gillacorn_offset_to_internal_offset_by)
            }
            Operation::InternalOffsetToRva => {
                offset_to_address(case, gillacorn_internal_offset_to_rva)
            }
            Operation::InternalOffsetToInternalRva => {
                offset_to_address(case, gillacorn_internal_offset_to_internal_rva)
            }
            Operation::InternalOffsetToSectionOffset => {
                offset_to_offset(case, gillacorn_internal_offset_to_section_offset_by)
            }
            Operation::QuickLookup => lookups::quick_lookup(case),
        }
    }
}

impl TryFrom<u8> for Operation {
    type Error = Broken;

    fn try_from(number: u8) -> Result<Operation, Broken> {
        // By its place: to search through them all was a fifth of a run's instructions.
        let place = usize::from(number).checked_sub(1).ok_or(Broken)?;
        Operation::ALL.get(place).copied().ok_or(Broken)
    }
}

// Its number and its name.
impl fmt::Display for Operation {
    fn fmt<W: fmt::Write>(&self, f: &mut fmt::Formatter<W>) -> fmt::Result {
        write!(f, "{} {}", *self as u8, self.name())
    }
}
