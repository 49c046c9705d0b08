// From an address to a section and an offset in it, and back; and the address map that the conversions are lent.
// Its tables have their marks beside them, one by one as C passes them: C has no Option.
ghost use Rattle.std.specs.Prelude.{◌≡◌, cond, Some, None};
ghost use Rattle.lent.specs.Paper.{sum_number, told};
ghost use Rattle.address_map.specs.Sections.{in_section, section_spec, address_spec};
ghost use Rattle.gillacorn.specs.Code.{value_answer};
ghost use Rattle.gillacorn.specs.Sections.{extent_by, offset_answer};

use crate::code::{ValueAnswer, coded, value_answer};
use address_map::AddressMap;
use address_map::sections::{Offset, get_section_offset, get_virtual_address};
use lent::{SumRefusal, if_present};
use pe::ExtentBy;

// A section, from 1, and an offset in it, beside the code: C has neither Option nor Result.
#[repr(C)]
#[derive(Clone, Copy)]
pub struct OffsetAnswer {
    pub code: u32,
    pub section: u16,
    pub offset: u32,
}

// A place in a section as the face shows it.
pub fn offset_answer(answer: Result<Option<Offset>, SumRefusal>) -> OffsetAnswer
    ensures { result ≡ offset_answer (told sum_number answer) }
{
    let none = Offset {
        section: 0,
        offset: 0,
    };
    let (code, Offset { section, offset }) = coded(answer, none);
    OffsetAnswer {
        code,
        section,
        offset,
    }
}

// Which size is the extent, as the face is told it. A bool has no third value that would need an
// answer.
pub fn extent_by(by_raw_size: bool) -> ExtentBy
    ensures { result ≡ extent_by by_raw_size }
{
    if by_raw_size {
        return ExtentBy::RawSize;
    }
    ExtentBy::MemorySize
}

// The address map whose tables C lends behind their marks.
pub(crate) fn map_of<'t>(
    extent_by: ExtentBy,
    has_original: bool,
    original: &'t [u8],
    has_transformed: bool,
    transformed: &'t [u8],
    has_to_original: bool,
    to_original: &'t [u8],
    has_to_transformed: bool,
    to_transformed: &'t [u8],
) -> AddressMap<'t>
    ensures { result ≡ record {
      original_sections = cond has_original (Some original.entry) None;
      transformed_sections = cond has_transformed (Some transformed.entry) None;
      to_original = cond has_to_original (Some to_original.entry) None;
      to_transformed = cond has_to_transformed (Some to_transformed.entry) None;
      extent_by = extent_by;
    } }
{
    AddressMap {
        original_sections: if_present(has_original, original),
        transformed_sections: if_present(has_transformed, transformed),
        to_original: if_present(has_to_original, to_original),
        to_transformed: if_present(has_to_transformed, to_transformed),
        extent_by,
    }
}

pub fn gillacorn_section_offset_by(by_raw_size: bool, sections: &[u8], address: u32) -> OffsetAnswer
    ensures { result ≡ offset_answer (section_spec (extent_by by_raw_size) sections.now address) }
{
    let by = extent_by(by_raw_size);
    offset_answer(get_section_offset(by, sections, address))
}

pub fn gillacorn_virtual_address(sections: &[u8], section: u16, offset: u32) -> ValueAnswer
    ensures { result ≡ value_answer (address_spec sections.now (in_section section offset)) }
{
    value_answer(get_virtual_address(sections, section, offset))
}
