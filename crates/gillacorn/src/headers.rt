// Section headers, their flags and names. A code stands beside each answer: C has no Option.
ghost use Rattle.std.specs.Prelude.{◌≡◌, length};
ghost use Rattle.lent.specs.Paper.{number, told};
ghost use Rattle.pe.specs.Header.{header_spec, no_header};
ghost use Rattle.pe.specs.Flags.{alignment_spec, told_alignment};
ghost use Rattle.pe.specs.Name.{name_spec};
ghost use Rattle.gillacorn.specs.Code.{value_answer};
ghost use Rattle.gillacorn.specs.Headers.{header_answer, flags_of};

use crate::code::{ValueAnswer, coded, value_answer};
use lent::Refusal;
use pe::{ImageSectionHeader, SectionCharacteristics};

// A header beside its code; all zeros where there is none to give.
#[repr(C)]
#[derive(Clone, Copy)]
pub struct HeaderAnswer {
    pub code: u32,
    pub header: ImageSectionHeader,
}

// What the characteristics of a section say.
#[repr(C)]
#[derive(Clone, Copy)]
pub struct Flags {
    pub executable: bool,
    pub initialized_data: bool,
    pub uninitialized_data: bool,
    pub other: bool,
    pub info: bool,
    pub remove: bool,
    pub comdat: bool,
    pub defer_speculative_exceptions: bool,
    pub global_pointer_relative: bool,
    pub purgeable: bool,
    pub locked: bool,
    pub preload: bool,
    pub lnk_nreloc_ovfl: bool,
    pub discardable: bool,
    pub not_cached: bool,
    pub not_paged: bool,
    pub shared: bool,
    pub execute: bool,
    pub read: bool,
    pub write: bool,
}

// All zeros, where there is no header to give. A Default would be a public function of pe for C's zeros alone.
fn no_header() -> ImageSectionHeader
    ensures { result ≡ no_header }
{
    ImageSectionHeader {
        name: [0; 8],
        virtual_size: 0,
        virtual_address: 0,
        size_of_raw_data: 0,
        pointer_to_raw_data: 0,
        pointer_to_relocations: 0,
        pointer_to_line_numbers: 0,
        number_of_relocations: 0,
        number_of_line_numbers: 0,
        characteristics: SectionCharacteristics(0),
    }
}

fn header_answer(answer: Result<Option<ImageSectionHeader>, Refusal>) -> HeaderAnswer
    ensures { result ≡ header_answer (told number answer) }
{
    let (code, header) = coded(answer, no_header());
    HeaderAnswer { code, header }
}

fn aligned(alignment: Option<u16>) -> ValueAnswer
    ensures { result ≡ value_answer (told_alignment alignment) }
{
    value_answer(Ok(alignment.map(u32::from)))
}

pub fn gillacorn_header(table: &[u8], place: usize) -> HeaderAnswer
    ensures { result ≡ header_answer (header_spec table.now place) }
{
    header_answer(pe::header_at(table, place))
}

pub fn gillacorn_name_length(table: &[u8], number: u16) -> usize
    ensures { result ≡ length (name_spec table.now number) }
{
    pe::name_length(table, number)
}

pub fn gillacorn_characteristics(characteristics: u32) -> Flags
    ensures { result ≡ flags_of characteristics }
{
    let c = SectionCharacteristics(characteristics);
    Flags {
        executable: c.executable(),
        initialized_data: c.initialized_data(),
        uninitialized_data: c.uninitialized_data(),
        other: c.other(),
        info: c.info(),
        remove: c.remove(),
        comdat: c.comdat(),
        defer_speculative_exceptions: c.defer_speculative_exceptions(),
        global_pointer_relative: c.global_pointer_relative(),
        purgeable: c.purgeable(),
        locked: c.locked(),
        preload: c.preload(),
        lnk_nreloc_ovfl: c.lnk_nreloc_ovfl(),
        discardable: c.discardable(),
        not_cached: c.not_cached(),
        not_paged: c.not_paged(),
        shared: c.shared(),
        execute: c.execute(),
        read: c.read(),
        write: c.write(),
    }
}

pub fn gillacorn_alignment(characteristics: u32) -> ValueAnswer
    ensures { result ≡ value_answer (alignment_spec characteristics) }
{
    aligned(SectionCharacteristics(characteristics).alignment())
}
