// A section header by its place in a table of them.
ghost use Rattle.std.specs.Prelude.{◌≡◌, ◌+◌, ◌/◌, ◌≤◌, ◌<◌, length, take, drop};
ghost use Rattle.lent.specs.Paper.{told, number};
ghost use Rattle.pe.specs.Header.{header_at, header_spec, told_given};

use crate::characteristics::SectionCharacteristics;
use lent::{Refusal, SECTIONS};

// A PE `IMAGE_SECTION_HEADER`.
#[repr(C)]
#[derive(Clone, Copy)]
pub struct ImageSectionHeader {
    // Eight bytes of UTF-8, filled up with zeros.
    pub name: [u8; 8],
    // The size of the section in memory.
    pub virtual_size: u32,
    // The address of its first byte in memory, relative to the image base.
    pub virtual_address: u32,
    // The size of its data on disk.
    pub size_of_raw_data: u32,
    // Where its data stands in the file.
    pub pointer_to_raw_data: u32,
    // Where its relocations stand in the file.
    pub pointer_to_relocations: u32,
    // Where its line numbers stand in the file.
    pub pointer_to_line_numbers: u32,
    // How many relocations it has: 0 for an image.
    pub number_of_relocations: u16,
    // How many line numbers it has.
    pub number_of_line_numbers: u16,
    // What it holds and how it is used.
    pub characteristics: SectionCharacteristics,
}

// The address at which the section at a place begins. A table and a place stay two arguments, here and below: a walk
// goes over the places of one table, and a struct of both, made anew for each place, would be no plainer.
#[tactic(auto, unfolding(crate::specs::Header::header_at))]
pub fn virtual_address_at(table: &[u8], place: usize) -> u32
    requires { place < length table.now / 40 }
    ensures { result ≡ (header_at table.now place).virtual_address }
{
    lent::u32_at(table, SECTIONS.width * place + 12)
}

// The eight bytes at a place.
fn eight_at(s: &[u8], at: usize) -> [u8; 8]
    requires { at + 8 ≤ length s.now }
    ensures { result ≡ take 8 (drop at s.now) }
{
    let mut eight = [0; 8];
    eight.copy_from_slice(&s[at..at + 8]);
    eight
}

// The header at a place that the table has.
#[tactic(auto, unfolding(crate::specs::Header::header_at))]
fn decoded(table: &[u8], place: usize) -> ImageSectionHeader
    requires { place < length table.now / 40 }
    ensures { result ≡ header_at table.now place }
{
    let at = SECTIONS.width * place;
    ImageSectionHeader {
        name: eight_at(table, at),
        virtual_size: lent::u32_at(table, at + 8),
        virtual_address: lent::u32_at(table, at + 12),
        size_of_raw_data: lent::u32_at(table, at + 16),
        pointer_to_raw_data: lent::u32_at(table, at + 20),
        pointer_to_relocations: lent::u32_at(table, at + 24),
        pointer_to_line_numbers: lent::u32_at(table, at + 28),
        number_of_relocations: lent::u16_at(table, at + 32),
        number_of_line_numbers: lent::u16_at(table, at + 34),
        characteristics: SectionCharacteristics(lent::u32_at(table, at + 36)),
    }
}

// Whether a table has a header at a place: what `header_at` answers, without the header.
#[tactic(auto, unfolding(crate::specs::Header::header_spec))]
pub fn given_at(table: &[u8], place: usize) -> Result<bool, Refusal>
    ensures { told_given result (header_at table.now place) ≡ header_spec table.now place }
{
    SECTIONS.has(table, place)
}

// The header at a place of a table.
#[tactic(auto, using(crate::proofs::HeaderAnswers::found))]
pub fn header_at(table: &[u8], place: usize) -> Result<Option<ImageSectionHeader>, Refusal>
    ensures { told number result ≡ header_spec table.now place }
{
    if given_at(table, place)? {
        return Ok(Some(decoded(table, place)));
    }
    Ok(None)
}
