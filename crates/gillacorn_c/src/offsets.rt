// The conversions of an address map that end in a section. Each takes the choice of the extent, and is
// lent all four tables of the map, behind their marks. C has no Option: a table that may be missing is a mark and bytes.
ghost use Rattle.std.specs.Prelude.{◌≡◌};
ghost use Rattle.lent.specs.Table.{if_present};
ghost use Rattle.address_map.specs.Sections.{in_section, section_spec};
ghost use Rattle.address_map.specs.Paths.{actual, cross_locate, place_cross_locate};
ghost use Rattle.gillacorn.specs.Sections.{extent_by, offset_answer};

use gillacorn::sections::OffsetAnswer;

#[unsafe(no_mangle)]
pub extern "C" fn gillacorn_rva_to_section_offset_by<'s>(
    by_raw_size: bool,
    rva: u32,
    has_original: bool,
    original: &'s [u8],
    has_transformed: bool,
    transformed: &'s [u8],
    has_to_original: bool,
    to_original: &'s [u8],
    has_to_transformed: bool,
    to_transformed: &'s [u8],
) -> OffsetAnswer
    ensures { result ≡ offset_answer (section_spec (extent_by by_raw_size) (actual has_original original.now has_transformed transformed.now) rva) }
{
    gillacorn::offsets::gillacorn_rva_to_section_offset_by(
        by_raw_size,
        rva,
        has_original,
        original,
        has_transformed,
        transformed,
        has_to_original,
        to_original,
        has_to_transformed,
        to_transformed,
    )
}

#[unsafe(no_mangle)]
pub extern "C" fn gillacorn_rva_to_internal_offset_by<'s>(
    by_raw_size: bool,
    rva: u32,
    has_original: bool,
    original: &'s [u8],
    has_transformed: bool,
    transformed: &'s [u8],
    has_to_original: bool,
    to_original: &'s [u8],
    has_to_transformed: bool,
    to_transformed: &'s [u8],
) -> OffsetAnswer
    ensures { result ≡ offset_answer (cross_locate (extent_by by_raw_size) has_to_original to_original.now (if_present has_original original.now) rva) }
{
    gillacorn::offsets::gillacorn_rva_to_internal_offset_by(
        by_raw_size,
        rva,
        has_original,
        original,
        has_transformed,
        transformed,
        has_to_original,
        to_original,
        has_to_transformed,
        to_transformed,
    )
}

#[unsafe(no_mangle)]
pub extern "C" fn gillacorn_internal_rva_to_section_offset_by<'s>(
    by_raw_size: bool,
    rva: u32,
    has_original: bool,
    original: &'s [u8],
    has_transformed: bool,
    transformed: &'s [u8],
    has_to_original: bool,
    to_original: &'s [u8],
    has_to_transformed: bool,
    to_transformed: &'s [u8],
) -> OffsetAnswer
    ensures { result ≡ offset_answer (cross_locate (extent_by by_raw_size) has_to_transformed to_transformed.now
        (actual has_original original.now has_transformed transformed.now) rva) }
{
    gillacorn::offsets::gillacorn_internal_rva_to_section_offset_by(
        by_raw_size,
        rva,
        has_original,
        original,
        has_transformed,
        transformed,
        has_to_original,
        to_original,
        has_to_transformed,
        to_transformed,
    )
}

#[unsafe(no_mangle)]
pub extern "C" fn gillacorn_internal_rva_to_internal_offset_by<'s>(
    by_raw_size: bool,
    rva: u32,
    has_original: bool,
    original: &'s [u8],
    has_transformed: bool,
    transformed: &'s [u8],
    has_to_original: bool,
    to_original: &'s [u8],
    has_to_transformed: bool,
    to_transformed: &'s [u8],
) -> OffsetAnswer
    ensures { result ≡ offset_answer (section_spec (extent_by by_raw_size) (if_present has_original original.now) rva) }
{
    gillacorn::offsets::gillacorn_internal_rva_to_internal_offset_by(
        by_raw_size,
        rva,
        has_original,
        original,
        has_transformed,
        transformed,
        has_to_original,
        to_original,
        has_to_transformed,
        to_transformed,
    )
}

#[unsafe(no_mangle)]
pub extern "C" fn gillacorn_offset_to_internal_offset_by<'s>(
    by_raw_size: bool,
    section: u16,
    offset: u32,
    has_original: bool,
    original: &'s [u8],
    has_transformed: bool,
    transformed: &'s [u8],
    has_to_original: bool,
    to_original: &'s [u8],
    has_to_transformed: bool,
    to_transformed: &'s [u8],
) -> OffsetAnswer
    ensures { result ≡ offset_answer (place_cross_locate (extent_by by_raw_size) has_transformed transformed.now has_to_original
        to_original.now (if_present has_original original.now) (in_section section offset)) }
{
    gillacorn::offsets::gillacorn_offset_to_internal_offset_by(
        by_raw_size,
        section,
        offset,
        has_original,
        original,
        has_transformed,
        transformed,
        has_to_original,
        to_original,
        has_to_transformed,
        to_transformed,
    )
}

#[unsafe(no_mangle)]
pub extern "C" fn gillacorn_internal_offset_to_section_offset_by<'s>(
    by_raw_size: bool,
    section: u16,
    offset: u32,
    has_original: bool,
    original: &'s [u8],
    has_transformed: bool,
    transformed: &'s [u8],
    has_to_original: bool,
    to_original: &'s [u8],
    has_to_transformed: bool,
    to_transformed: &'s [u8],
) -> OffsetAnswer
    ensures { result ≡ offset_answer (place_cross_locate (extent_by by_raw_size) has_transformed (if_present has_original original.now)
        has_to_transformed to_transformed.now transformed.now (in_section section offset)) }
{
    gillacorn::offsets::gillacorn_internal_offset_to_section_offset_by(
        by_raw_size,
        section,
        offset,
        has_original,
        original,
        has_transformed,
        transformed,
        has_to_original,
        to_original,
        has_to_transformed,
        to_transformed,
    )
}
