// Sections.
ghost use Rattle.std.specs.Prelude.{◌≡◌};
ghost use Rattle.address_map.specs.Sections.{section_spec, address_spec};
ghost use Rattle.gillacorn.specs.Code.{value_answer};
ghost use Rattle.gillacorn.specs.Sections.{extent_by, offset_answer};

use crate::expected::is;
use check::expect;
use gillacorn::sections::{gillacorn_section_offset_by, gillacorn_virtual_address};

// The extent is a flag, as C tells it to the face.
const BY_MEMORY_SIZE: bool = false;

const BY_RAW_SIZE: bool = true;

// The section of an address, and the offset in it. By fields, for the reason in expected.rt.
fn locates(by: bool, table: &[u8], address: u32, code: u32, section: u16, offset: u32)
    requires { offset_answer (section_spec (extent_by by) table.now address)
        ≡ record { code = code; section = section; offset = offset } }
{
    let told = gillacorn_section_offset_by(by, table, address);
    expect(told.code == code);
    expect(told.section == section);
    expect(told.offset == offset);
}

// The address of an offset in a section.
fn lies(table: &[u8], section: u16, offset: u32, code: u32, value: u32)
    requires { value_answer (address_spec table.now (record { section = section; offset = offset })) ≡ record { code = code; value = value } }
{
    is(
        gillacorn_virtual_address(table, section, offset),
        code,
        value,
    );
}

#[tactic(auto, unfolding(crate::proofs::Opened::addresses))]
pub(crate) fn all() {
    // 1000 size 200, 2000 size 400
    let table = b"\0\0\0\0\0\0\0\0\0\0\0\0\x00\x10\0\0\x00\x02\0\0\
        \0\0\0\0\0\0\0\0\0\0\0\0\0\0\0\0\0\0\0\0\
        \0\0\0\0\0\0\0\0\0\0\0\0\x00\x20\0\0\x00\x04\0\0\
        \0\0\0\0\0\0\0\0\0\0\0\0\0\0\0\0\0\0\0\0";
    locates(BY_MEMORY_SIZE, table, 0x11FF, 0, 1, 0x1FF);
    locates(BY_MEMORY_SIZE, table, 0x1200, 255, 0, 0);
    lies(table, 1, 0x5000, 0, 0x6000);
    // 1000: 300 in memory, 200 on disk; 2000: 180 in memory, 200 on disk
    let padded = b"\0\0\0\0\0\0\0\0\x00\x03\0\0\x00\x10\0\0\x00\x02\0\0\
        \0\0\0\0\0\0\0\0\0\0\0\0\0\0\0\0\0\0\0\0\
        \0\0\0\0\0\0\0\0\x80\x01\0\0\x00\x20\0\0\x00\x02\0\0\
        \0\0\0\0\0\0\0\0\0\0\0\0\0\0\0\0\0\0\0\0";
    locates(BY_MEMORY_SIZE, padded, 0x1200, 0, 1, 0x200);
    locates(BY_MEMORY_SIZE, padded, 0x12FF, 0, 1, 0x2FF);
    locates(BY_MEMORY_SIZE, padded, 0x1300, 255, 0, 0);
    locates(BY_MEMORY_SIZE, padded, 0x2180, 255, 0, 0);
    locates(BY_RAW_SIZE, padded, 0x1200, 255, 0, 0);
    locates(BY_RAW_SIZE, padded, 0x2180, 0, 2, 0x180);
}
