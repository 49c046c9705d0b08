// The conversions of an address map that end in an address. Each is lent all four tables of the map,
// behind their marks, and hands on those on its path. C has no Option: a table that may be missing is a mark and bytes.
ghost use Rattle.std.specs.Prelude.{◌≡◌};
ghost use Rattle.lent.specs.Table.{if_present};
ghost use Rattle.omap.specs.Lookup.{lookup_spec};
ghost use Rattle.address_map.specs.Sections.{in_section, address_spec};
ghost use Rattle.address_map.specs.Paths.{actual, place_cross};
ghost use Rattle.gillacorn.specs.Code.{value_answer};

use gillacorn::code::ValueAnswer;

#[unsafe(no_mangle)]
pub extern "C" fn gillacorn_rva_to_internal_rva<'s>(
    rva: u32,
    has_original: bool,
    original: &'s [u8],
    has_transformed: bool,
    transformed: &'s [u8],
    has_to_original: bool,
    to_original: &'s [u8],
    has_to_transformed: bool,
    to_transformed: &'s [u8],
) -> ValueAnswer
    ensures { result ≡ value_answer (lookup_spec has_to_original to_original.now rva) }
{
    gillacorn::addresses::gillacorn_rva_to_internal_rva(
        rva,
        has_original,
        original,
        has_transformed,
        transformed,
        has_to_original,
        to_original,
        has_to_transformed,
        to_transformed,
    )
}

#[unsafe(no_mangle)]
pub extern "C" fn gillacorn_internal_rva_to_rva<'s>(
    rva: u32,
    has_original: bool,
    original: &'s [u8],
    has_transformed: bool,
    transformed: &'s [u8],
    has_to_original: bool,
    to_original: &'s [u8],
    has_to_transformed: bool,
    to_transformed: &'s [u8],
) -> ValueAnswer
    ensures { result ≡ value_answer (lookup_spec has_to_transformed to_transformed.now rva) }
{
    gillacorn::addresses::gillacorn_internal_rva_to_rva(
        rva,
        has_original,
        original,
        has_transformed,
        transformed,
        has_to_original,
        to_original,
        has_to_transformed,
        to_transformed,
    )
}

#[unsafe(no_mangle)]
pub extern "C" fn gillacorn_offset_to_rva<'s>(
    section: u16,
    offset: u32,
    has_original: bool,
    original: &'s [u8],
    has_transformed: bool,
    transformed: &'s [u8],
    has_to_original: bool,
    to_original: &'s [u8],
    has_to_transformed: bool,
    to_transformed: &'s [u8],
) -> ValueAnswer
    ensures { result ≡ value_answer (address_spec
        (actual has_original original.now has_transformed transformed.now)
        (in_section section offset)) }
{
    gillacorn::addresses::gillacorn_offset_to_rva(
        section,
        offset,
        has_original,
        original,
        has_transformed,
        transformed,
        has_to_original,
        to_original,
        has_to_transformed,
        to_transformed,
    )
}

#[unsafe(no_mangle)]
pub extern "C" fn gillacorn_offset_to_internal_rva<'s>(
    section: u16,
    offset: u32,
    has_original: bool,
    original: &'s [u8],
    has_transformed: bool,
    transformed: &'s [u8],
    has_to_original: bool,
    to_original: &'s [u8],
    has_to_transformed: bool,
    to_transformed: &'s [u8],
) -> ValueAnswer
    ensures { result ≡ value_answer (place_cross
        (actual has_original original.now has_transformed transformed.now) has_to_original
        to_original.now (in_section section offset)) }
{
    gillacorn::addresses::gillacorn_offset_to_internal_rva(
        section,
        offset,
        has_original,
        original,
        has_transformed,
        transformed,
        has_to_original,
        to_original,
        has_to_transformed,
        to_transformed,
    )
}

#[unsafe(no_mangle)]
pub extern "C" fn gillacorn_internal_offset_to_rva<'s>(
    section: u16,
    offset: u32,
    has_original: bool,
    original: &'s [u8],
    has_transformed: bool,
    transformed: &'s [u8],
    has_to_original: bool,
    to_original: &'s [u8],
    has_to_transformed: bool,
    to_transformed: &'s [u8],
) -> ValueAnswer
    ensures { result ≡ value_answer (place_cross (if_present has_original original.now) has_to_transformed
        to_transformed.now (in_section section offset)) }
{
    gillacorn::addresses::gillacorn_internal_offset_to_rva(
        section,
        offset,
        has_original,
        original,
        has_transformed,
        transformed,
        has_to_original,
        to_original,
        has_to_transformed,
        to_transformed,
    )
}

#[unsafe(no_mangle)]
pub extern "C" fn gillacorn_internal_offset_to_internal_rva<'s>(
    section: u16,
    offset: u32,
    has_original: bool,
    original: &'s [u8],
    has_transformed: bool,
    transformed: &'s [u8],
    has_to_original: bool,
    to_original: &'s [u8],
    has_to_transformed: bool,
    to_transformed: &'s [u8],
) -> ValueAnswer
    ensures { result ≡ value_answer (address_spec (if_present has_original original.now) (in_section section offset)) }
{
    gillacorn::addresses::gillacorn_internal_offset_to_internal_rva(
        section,
        offset,
        has_original,
        original,
        has_transformed,
        transformed,
        has_to_original,
        to_original,
        has_to_transformed,
        to_transformed,
    )
}
