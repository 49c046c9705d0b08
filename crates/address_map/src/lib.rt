// The address map: conversions between addresses and offsets of the actual image and of the original one. Each reads
// the tables on its path alone, and refuses at the first step that fails.
#![tactic(auto)]

ghost use Rattle.std.specs.Prelude.{◌≡◌, is_some};
ghost use Rattle.lent.specs.Table.{bytes_of};
ghost use Rattle.omap.specs.Lookup.{lookup_spec};
ghost use Rattle.address_map.specs.Sections.{in_section, section_spec, address_spec};
ghost use Rattle.address_map.specs.Paths.{cross_locate, place_cross, place_cross_locate};
ghost use Rattle.address_map.specs.Map.{actual_of};
ghost use Rattle.address_map.specs.Told.{told_as, rva_of, internal_rva_of, offset_of, internal_offset_of};

mod kinds;
mod map;
pub mod paths;
pub mod sections;

pub use crate::kinds::{Address, Place};
pub use crate::map::AddressMap;
use crate::paths::{cross_locate, place_cross, place_cross_locate};
use crate::sections::{get_section_offset, get_virtual_address};
use lent::{SumRefusal, bytes_or_none};

// An address in the actual image.
#[derive(Clone, Copy)]
pub struct Rva(pub u32);

// An address as it was before the image was rearranged.
#[derive(Clone, Copy)]
pub struct PdbInternalRva(pub u32);

// An offset in a section of the actual image; sections count from 1.
#[derive(Clone, Copy)]
pub struct SectionOffset {
    pub offset: u32,
    pub section: u16,
}

// An offset in a section of the original image; sections count from 1.
#[derive(Clone, Copy)]
pub struct PdbInternalSectionOffset {
    pub offset: u32,
    pub section: u16,
}

// The conversions of the two sides stay apart: what they share is in paths.rt, and each says no more than its tables, in
// one call. One generic conversion would need a type for each side and its tables, and be no plainer.
impl Rva {
    // The address before the image was rearranged.
    pub fn to_internal_rva(self, map: AddressMap) -> Result<Option<PdbInternalRva>, SumRefusal>
        ensures { told_as internal_rva_of result
            ≡ lookup_spec (is_some map.entry.to_original) (bytes_of map.entry.to_original) self.0 }
    {
        let found = omap::lookup(map.to_original, self.0)?;
        Ok(found.map(PdbInternalRva))
    }

    // The section and the offset in it.
    pub fn to_section_offset(self, map: AddressMap) -> Result<Option<SectionOffset>, SumRefusal>
        ensures { told_as offset_of result
            ≡ section_spec map.entry.extent_by (actual_of map.entry) self.0 }
    {
        let found = get_section_offset(map.extent_by, map.actual_sections(), self.0)?;
        Ok(found.map(SectionOffset::from))
    }

    // The section of the original image and the offset in it.
    pub fn to_internal_offset(
        self,
        map: AddressMap,
    ) -> Result<Option<PdbInternalSectionOffset>, SumRefusal>
        ensures { told_as internal_offset_of result
            ≡ cross_locate map.entry.extent_by (is_some map.entry.to_original) (bytes_of map.entry.to_original)
            (bytes_of map.entry.original_sections) self.0 }
    {
        let original = bytes_or_none(map.original_sections);
        let found = cross_locate(map.extent_by, map.to_original, original, self.0)?;
        Ok(found.map(PdbInternalSectionOffset::from))
    }
}

impl PdbInternalRva {
    // The address in the actual image.
    pub fn to_rva(self, map: AddressMap) -> Result<Option<Rva>, SumRefusal>
        ensures { told_as rva_of result
            ≡ lookup_spec (is_some map.entry.to_transformed) (bytes_of map.entry.to_transformed) self.0 }
    {
        let found = omap::lookup(map.to_transformed, self.0)?;
        Ok(found.map(Rva))
    }

    // The section of the actual image and the offset in it.
    pub fn to_section_offset(self, map: AddressMap) -> Result<Option<SectionOffset>, SumRefusal>
        ensures { told_as offset_of result
            ≡ cross_locate map.entry.extent_by (is_some map.entry.to_transformed) (bytes_of map.entry.to_transformed)
            (actual_of map.entry) self.0 }
    {
        let actual = map.actual_sections();
        let found = cross_locate(map.extent_by, map.to_transformed, actual, self.0)?;
        Ok(found.map(SectionOffset::from))
    }

    // The section of the original image and the offset in it.
    pub fn to_internal_offset(
        self,
        map: AddressMap,
    ) -> Result<Option<PdbInternalSectionOffset>, SumRefusal>
        ensures { told_as internal_offset_of result
            ≡ section_spec map.entry.extent_by (bytes_of map.entry.original_sections) self.0 }
    {
        let original = bytes_or_none(map.original_sections);
        let found = get_section_offset(map.extent_by, original, self.0)?;
        Ok(found.map(PdbInternalSectionOffset::from))
    }
}

impl SectionOffset {
    // The address in the actual image.
    pub fn to_rva(self, map: AddressMap) -> Result<Option<Rva>, SumRefusal>
        ensures { told_as rva_of result
            ≡ address_spec (actual_of map.entry) (in_section self.section self.offset) }
    {
        let found = get_virtual_address(map.actual_sections(), self.section, self.offset)?;
        Ok(found.map(Rva))
    }

    // The address before the image was rearranged.
    pub fn to_internal_rva(self, map: AddressMap) -> Result<Option<PdbInternalRva>, SumRefusal>
        ensures { told_as internal_rva_of result
            ≡ place_cross (actual_of map.entry) (is_some map.entry.to_original) (bytes_of map.entry.to_original)
            (in_section self.section self.offset) }
    {
        let found = place_cross(map.actual_sections(), map.to_original, self.place())?;
        Ok(found.map(PdbInternalRva))
    }

    // The section of the original image and the offset in it; with no transformed sections, the same.
    pub fn to_internal_offset(
        self,
        map: AddressMap,
    ) -> Result<Option<PdbInternalSectionOffset>, SumRefusal>
        ensures { told_as internal_offset_of result
            ≡ place_cross_locate map.entry.extent_by (is_some map.entry.transformed_sections)
            (bytes_of map.entry.transformed_sections) (is_some map.entry.to_original)
            (bytes_of map.entry.to_original) (bytes_of map.entry.original_sections)
            (in_section self.section self.offset) }
    {
        let found = place_cross_locate(
            map.extent_by,
            map.transformed_sections.is_some(),
            bytes_or_none(map.transformed_sections),
            map.to_original,
            bytes_or_none(map.original_sections),
            self.place(),
        )?;
        Ok(found.map(PdbInternalSectionOffset::from))
    }
}

impl PdbInternalSectionOffset {
    // The address in the actual image.
    pub fn to_rva(self, map: AddressMap) -> Result<Option<Rva>, SumRefusal>
        ensures { told_as rva_of result
            ≡ place_cross (bytes_of map.entry.original_sections) (is_some map.entry.to_transformed)
            (bytes_of map.entry.to_transformed) (in_section self.section self.offset) }
    {
        let original = bytes_or_none(map.original_sections);
        let found = place_cross(original, map.to_transformed, self.place())?;
        Ok(found.map(Rva))
    }

    // The address before the image was rearranged.
    pub fn to_internal_rva(self, map: AddressMap) -> Result<Option<PdbInternalRva>, SumRefusal>
        ensures { told_as internal_rva_of result
            ≡ address_spec (bytes_of map.entry.original_sections) (in_section self.section self.offset) }
    {
        let original = bytes_or_none(map.original_sections);
        let found = get_virtual_address(original, self.section, self.offset)?;
        Ok(found.map(PdbInternalRva))
    }

    // The section of the actual image and the offset in it; with no transformed sections, the same.
    pub fn to_section_offset(self, map: AddressMap) -> Result<Option<SectionOffset>, SumRefusal>
        ensures { told_as offset_of result
            ≡ place_cross_locate map.entry.extent_by (is_some map.entry.transformed_sections)
            (bytes_of map.entry.original_sections) (is_some map.entry.to_transformed)
            (bytes_of map.entry.to_transformed) (bytes_of map.entry.transformed_sections)
            (in_section self.section self.offset) }
    {
        let found = place_cross_locate(
            map.extent_by,
            map.transformed_sections.is_some(),
            bytes_or_none(map.original_sections),
            map.to_transformed,
            bytes_or_none(map.transformed_sections),
            self.place(),
        )?;
        Ok(found.map(SectionOffset::from))
    }
}
