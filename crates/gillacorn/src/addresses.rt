// The conversions of an address map that end in an address. Each is lent all four tables of the map,
// behind their marks, and reads those on its path. C passes marks and tables one by one, so here they are no struct.
#![tactic(auto, using(address_map::proofs::Marked::marked_tables))]

ghost use Rattle.std.specs.Prelude.{◌≡◌};
ghost use Rattle.lent.specs.Table.{if_present};
ghost use Rattle.omap.specs.Lookup.{lookup_spec};
ghost use Rattle.address_map.specs.Sections.{in_section, address_spec};
ghost use Rattle.address_map.specs.Paths.{actual, place_cross};
ghost use Rattle.address_map.specs.Told.{told_as};
ghost use Rattle.gillacorn.specs.Code.{value_answer};

use crate::code::{ValueAnswer, value_answer};
use crate::sections::map_of;
use address_map::{Address, PdbInternalRva, PdbInternalSectionOffset, Rva, SectionOffset};
use lent::SumRefusal;
use pe::ExtentBy;

// No path to an address compares with an extent.
const NOT_ASKED: ExtentBy = ExtentBy::MemorySize;

// An address of either side as the face shows it.
fn address_answer<A: Address>(answer: Result<Option<A>, SumRefusal>) -> ValueAnswer
    ensures { result ≡ value_answer (told_as A.address_of answer) }
{
    value_answer(answer.map(|found| found.map(A::address)))
}

pub fn gillacorn_rva_to_internal_rva<'s>(
    rva: u32,
    has_original: bool,
    original: &'s [u8],
    has_transformed: bool,
    transformed: &'s [u8],
    has_to_original: bool,
    to_original: &'s [u8],
    has_to_transformed: bool,
    to_transformed: &'s [u8],
) -> ValueAnswer
    ensures { result ≡ value_answer (lookup_spec has_to_original to_original.now rva) }
{
    let map = map_of(
        NOT_ASKED,
        has_original,
        original,
        has_transformed,
        transformed,
        has_to_original,
        to_original,
        has_to_transformed,
        to_transformed,
    );
    address_answer(Rva(rva).to_internal_rva(map))
}

pub fn gillacorn_internal_rva_to_rva<'s>(
    rva: u32,
    has_original: bool,
    original: &'s [u8],
    has_transformed: bool,
    transformed: &'s [u8],
    has_to_original: bool,
    to_original: &'s [u8],
    has_to_transformed: bool,
    to_transformed: &'s [u8],
) -> ValueAnswer
    ensures { result ≡ value_answer (lookup_spec has_to_transformed to_transformed.now rva) }
{
    let map = map_of(
        NOT_ASKED,
        has_original,
        original,
        has_transformed,
        transformed,
        has_to_original,
        to_original,
        has_to_transformed,
        to_transformed,
    );
    address_answer(PdbInternalRva(rva).to_rva(map))
}

pub fn gillacorn_offset_to_rva<'s>(
    section: u16,
    offset: u32,
    has_original: bool,
    original: &'s [u8],
    has_transformed: bool,
    transformed: &'s [u8],
    has_to_original: bool,
    to_original: &'s [u8],
    has_to_transformed: bool,
    to_transformed: &'s [u8],
) -> ValueAnswer
    ensures { result ≡ value_answer (address_spec
        (actual has_original original.now has_transformed transformed.now)
        (in_section section offset)) }
{
    let map = map_of(
        NOT_ASKED,
        has_original,
        original,
        has_transformed,
        transformed,
        has_to_original,
        to_original,
        has_to_transformed,
        to_transformed,
    );
    address_answer(SectionOffset { offset, section }.to_rva(map))
}

pub fn gillacorn_offset_to_internal_rva<'s>(
    section: u16,
    offset: u32,
    has_original: bool,
    original: &'s [u8],
    has_transformed: bool,
    transformed: &'s [u8],
    has_to_original: bool,
    to_original: &'s [u8],
    has_to_transformed: bool,
    to_transformed: &'s [u8],
) -> ValueAnswer
    ensures { result ≡ value_answer (place_cross
        (actual has_original original.now has_transformed transformed.now) has_to_original
        to_original.now (in_section section offset)) }
{
    let map = map_of(
        NOT_ASKED,
        has_original,
        original,
        has_transformed,
        transformed,
        has_to_original,
        to_original,
        has_to_transformed,
        to_transformed,
    );
    address_answer(SectionOffset { offset, section }.to_internal_rva(map))
}

pub fn gillacorn_internal_offset_to_rva<'s>(
    section: u16,
    offset: u32,
    has_original: bool,
    original: &'s [u8],
    has_transformed: bool,
    transformed: &'s [u8],
    has_to_original: bool,
    to_original: &'s [u8],
    has_to_transformed: bool,
    to_transformed: &'s [u8],
) -> ValueAnswer
    ensures { result ≡ value_answer (place_cross (if_present has_original original.now) has_to_transformed
        to_transformed.now (in_section section offset)) }
{
    let map = map_of(
        NOT_ASKED,
        has_original,
        original,
        has_transformed,
        transformed,
        has_to_original,
        to_original,
        has_to_transformed,
        to_transformed,
    );
    address_answer(PdbInternalSectionOffset { offset, section }.to_rva(map))
}

pub fn gillacorn_internal_offset_to_internal_rva<'s>(
    section: u16,
    offset: u32,
    has_original: bool,
    original: &'s [u8],
    has_transformed: bool,
    transformed: &'s [u8],
    has_to_original: bool,
    to_original: &'s [u8],
    has_to_transformed: bool,
    to_transformed: &'s [u8],
) -> ValueAnswer
    ensures { result ≡ value_answer (address_spec (if_present has_original original.now) (in_section section offset)) }
{
    let map = map_of(
        NOT_ASKED,
        has_original,
        original,
        has_transformed,
        transformed,
        has_to_original,
        to_original,
        has_to_transformed,
        to_transformed,
    );
    address_answer(PdbInternalSectionOffset { offset, section }.to_internal_rva(map))
}
