// The paths of more than one step.
ghost use Rattle.std.specs.Prelude.{◌≡◌, is_some};
ghost use Rattle.lent.specs.Paper.{sum_number, told};
ghost use Rattle.lent.specs.Table.{bytes_of};
ghost use Rattle.address_map.specs.Paths.{cross_locate, place_cross, place_cross_locate};

use crate::sections::{Offset, get_section_offset, get_virtual_address};
use lent::SumRefusal;
use pe::ExtentBy;

// Through the OMAP, then to a section.
#[tactic(auto, unfolding(crate::specs::Paths::cross_locate))]
pub fn cross_locate(
    by: ExtentBy,
    omap: Option<&[u8]>,
    sections: &[u8],
    address: u32,
) -> Result<Option<Offset>, SumRefusal>
    ensures { told sum_number result
        ≡ cross_locate by (is_some omap.entry) (bytes_of omap.entry) sections.now address }
{
    let Some(crossed) = omap::lookup(omap, address)? else {
        return Ok(None);
    };
    get_section_offset(by, sections, crossed)
}

// From a section, then through the OMAP.
#[tactic(auto, unfolding(crate::specs::Paths::place_cross))]
pub fn place_cross(
    sections: &[u8],
    omap: Option<&[u8]>,
    place: Offset,
) -> Result<Option<u32>, SumRefusal>
    ensures { told sum_number result ≡ place_cross sections.now (is_some omap.entry) (bytes_of omap.entry) place }
{
    let Some(address) = get_virtual_address(sections, place.section, place.offset)? else {
        return Ok(None);
    };
    omap::lookup(omap, address)
}

// From a section, through the OMAP, to a section of the other side; with no transformed sections, the same. The flag
// stays beside the tables: `place_cross_locate` of specs/Paths.antt names it, and by the direction `from` or `to` is the
// transformed table.
#[tactic(auto, unfolding(crate::specs::Paths::place_cross_locate))]
pub fn place_cross_locate(
    by: ExtentBy,
    has_transformed: bool,
    from: &[u8],
    omap: Option<&[u8]>,
    to: &[u8],
    place: Offset,
) -> Result<Option<Offset>, SumRefusal>
    ensures { told sum_number result
        ≡ place_cross_locate by has_transformed from.now (is_some omap.entry) (bytes_of omap.entry) to.now place }
{
    if !has_transformed {
        return Ok(Some(place));
    }
    let Some(crossed) = place_cross(from, omap, place)? else {
        return Ok(None);
    };
    get_section_offset(by, to, crossed)
}
