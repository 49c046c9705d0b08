// From an address to a section and an offset in it, and back. C has no enum of Rattle's: the extent is a bool.
ghost use Rattle.std.specs.Prelude.{◌≡◌};
ghost use Rattle.address_map.specs.Sections.{in_section, section_spec, address_spec};
ghost use Rattle.gillacorn.specs.Code.{value_answer};
ghost use Rattle.gillacorn.specs.Sections.{extent_by, offset_answer};

use gillacorn::code::ValueAnswer;
use gillacorn::sections::OffsetAnswer;

#[unsafe(no_mangle)]
pub extern "C" fn gillacorn_section_offset_by(
    by_raw_size: bool,
    sections: &[u8],
    address: u32,
) -> OffsetAnswer
    ensures { result ≡ offset_answer (section_spec (extent_by by_raw_size) sections.now address) }
{
    gillacorn::sections::gillacorn_section_offset_by(by_raw_size, sections, address)
}

#[unsafe(no_mangle)]
pub extern "C" fn gillacorn_virtual_address(
    sections: &[u8],
    section: u16,
    offset: u32,
) -> ValueAnswer
    ensures { result ≡ value_answer (address_spec sections.now (in_section section offset)) }
{
    gillacorn::sections::gillacorn_virtual_address(sections, section, offset)
}
