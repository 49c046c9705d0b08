// The tables that the conversions read.
use lent::bytes_or_none;
use pe::ExtentBy;

// The sections and the OMAPs of an image that was rearranged, each of which may be absent, and which size of a section
// an address is compared with.
#[derive(Clone, Copy)]
pub struct AddressMap<'t> {
    pub original_sections: Option<&'t [u8]>,
    pub transformed_sections: Option<&'t [u8]>,
    pub to_original: Option<&'t [u8]>,
    pub to_transformed: Option<&'t [u8]>,
    pub extent_by: ExtentBy,
}

impl<'t> AddressMap<'t> {
    ghost use Rattle.std.specs.Prelude.{◌≡◌};
    ghost use Rattle.address_map.specs.Map.{actual_of};

    // The sections of the actual side: the original ones where no others are there.
    pub fn actual_sections(self) -> &'t [u8]
        ensures { result.now ≡ actual_of self.entry }
    {
        bytes_or_none(self.transformed_sections.or(self.original_sections))
    }
}
