// The extent of a section: the size with which an address is compared.
ghost use Rattle.std.specs.Prelude.{◌≡◌, ◌/◌, ◌<◌, length};
ghost use Rattle.pe.specs.Extent.{extent};
ghost use Rattle.pe.specs.Header.{header_at, layout};
ghost use Rattle.pe.specs.Inside.{size_field};

use lent::SECTIONS;

// Which of a header's two sizes the extent is.
#[derive(Clone, Copy, Debug, PartialEq, Eq)]
pub enum ExtentBy {
    // The size in memory, or the size on disk where that is 0.
    MemorySize,
    // The size on disk, as pdb has it.
    RawSize,
}

// Where in a header the size stands that a rule takes, unless that is 0. A walk over headers then has
// no branch on the rule, and stays short enough to become a part of its callers.
fn size_in_header(by: ExtentBy) -> usize
    ensures { result ≡ (layout (size_field by)).offset }
{
    match by {
        ExtentBy::MemorySize => 8,
        ExtentBy::RawSize => 16,
    }
}

// The extent of the section at a place: the one function that knows which size that is.
#[tactic(auto, unfolding(crate::specs::Extent::extent, crate::specs::Header::header_at))]
pub fn extent_at(by: ExtentBy, table: &[u8], place: usize) -> u32
    requires { place < length table.now / 40 }
    ensures { result ≡ extent by (header_at table.now place) }
{
    let at = SECTIONS.width * place;
    let raw_size = lent::u32_at(table, at + 16);
    let size = lent::u32_at(table, at + size_in_header(by));
    if size == 0 { raw_size } else { size }
}
