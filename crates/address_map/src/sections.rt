// From an address to a section and an offset in it, and back.
ghost use Rattle.std.specs.Prelude.{◌≡◌};
ghost use Rattle.lent.specs.Paper.{sum_number, told};
ghost use Rattle.address_map.specs.Sections.{in_section, section_spec, address_spec};

use lent::{SECTIONS, SumRefusal};
use pe::ExtentBy;

// A section's number, from 1, and an offset in it.
#[derive(Clone, Copy)]
pub struct Offset {
    pub section: u16,
    pub offset: u32,
}

// The section of an address, and the offset in it: none where it lies in no section. The headers are walked while they
// begin at or before the address.
#[tactic(auto, using(crate::proofs::Walks::walking), unfolding(crate::specs::Sections::section_spec))]
pub fn get_section_offset(
    by: ExtentBy,
    sections: &[u8],
    address: u32,
) -> Result<Option<Offset>, SumRefusal>
    ensures { told sum_number result ≡ section_spec by sections.now address }
{
    SECTIONS.shape(sections)?;
    for place in 0..sections.len() / SECTIONS.width {
        let start = pe::virtual_address_at(sections, place);
        if address < start {
            return Ok(None);
        }
        let offset = address - start;
        if offset < pe::extent_at(by, sections, place) {
            let section = (place + 1) as u16;
            return Ok(Some(Offset { section, offset }));
        }
    }
    Ok(None)
}

// The address of an offset in a section: none where there is no such section. The offset is not compared with the
// section's size.
#[tactic(auto, unfolding(crate::specs::Sections::address_spec))]
pub fn get_virtual_address(
    sections: &[u8],
    section: u16,
    offset: u32,
) -> Result<Option<u32>, SumRefusal>
    ensures { told sum_number result ≡ address_spec sections.now (in_section section offset) }
{
    SECTIONS.shape(sections)?;
    let Some(place) = usize::from(section).checked_sub(1) else {
        return Ok(None);
    };
    if place >= sections.len() / SECTIONS.width {
        return Ok(None);
    }
    let start = pe::virtual_address_at(sections, place);
    let address = start.checked_add(offset).ok_or(SumRefusal::TooLarge)?;
    Ok(Some(address))
}
