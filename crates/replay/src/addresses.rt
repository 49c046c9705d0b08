// Sections and the conversions of an address map.
use crate::case::{Broken, Case};
use gillacorn::code::ValueAnswer;
use gillacorn::sections::{OffsetAnswer, gillacorn_section_offset_by, gillacorn_virtual_address};

pub(crate) fn section_offset(case: &mut Case<'_>) -> Result<(), Broken> {
    let table = case.present_table()?;
    let by_raw_size = case.flag()?;
    gillacorn_section_offset_by(by_raw_size, table, case.number()?).compare(case)
}

pub(crate) fn virtual_address(case: &mut Case<'_>) -> Result<(), Broken> {
    let table = case.present_table()?;
    let ours = gillacorn_virtual_address(table, case.number()?, case.number()?);
    case.compare_byte(ours.code)?;
    case.compare(ours.value)
}

// An answer with a code, a section and an offset in it.
pub trait Located {
    fn compare(self, case: &mut Case<'_>) -> Result<(), Broken>;
}

impl Located for OffsetAnswer {
    fn compare(self, case: &mut Case<'_>) -> Result<(), Broken> {
        case.compare_byte(self.code)?;
        case.compare(self.section)?;
        case.compare(self.offset)
    }
}

// An address stands in a case as a section 0 and an offset.
impl Located for ValueAnswer {
    fn compare(self, case: &mut Case<'_>) -> Result<(), Broken> {
        OffsetAnswer {
            code: self.code,
            section: 0,
            offset: self.value,
        }
        .compare(case)
    }
}

// The four tables of a map, as the face takes them by C's interface: each behind its mark.
type Tables<'s> = (
    bool,
    &'s [u8],
    bool,
    &'s [u8],
    bool,
    &'s [u8],
    bool,
    &'s [u8],
);

// What a case of a conversion asks. The extent counts where an offset in a section comes out, the
// section where one goes in, and the number is an offset or an address.
#[derive(Drop)]
struct Asked<'s> {
    tables: Tables<'s>,
    by_raw_size: bool,
    section: u16,
    number: u32,
}

impl<'s> Asked<'s> {
    fn read(case: &mut Case<'s>) -> Result<Asked<'s>, Broken> {
        let (p1, t1) = case.table()?;
        let (p2, t2) = case.table()?;
        let (p3, t3) = case.table()?;
        let (p4, t4) = case.table()?;
        Ok(Asked {
            tables: (p1, t1, p2, t2, p3, t3, p4, t4),
            by_raw_size: case.flag()?,
            section: case.number()?,
            number: case.number()?,
        })
    }
}

// Each of these asks a conversion, which is the face's function for it. They differ in what it takes: one function for
// all would have each of the twelve conversions take the question apart in a closure of its own.
pub(crate) fn address_to_address<'s, F, A>(case: &mut Case<'s>, convert: F) -> Result<(), Broken>
where
    F: FnOnce(u32, bool, &'s [u8], bool, &'s [u8], bool, &'s [u8], bool, &'s [u8]) -> A,
    A: Located,
    requires { F.IsAlwaysCallable convert }
{
    let asked = Asked::read(case)?;
    let (p1, t1, p2, t2, p3, t3, p4, t4) = asked.tables;
    convert(asked.number, p1, t1, p2, t2, p3, t3, p4, t4).compare(case)
}

pub(crate) fn address_to_offset<'s, F, A>(case: &mut Case<'s>, convert: F) -> Result<(), Broken>
where
    F: FnOnce(bool, u32, bool, &'s [u8], bool, &'s [u8], bool, &'s [u8], bool, &'s [u8]) -> A,
    A: Located,
    requires { F.IsAlwaysCallable convert }
{
    let asked = Asked::read(case)?;
    let by = asked.by_raw_size;
    let (p1, t1, p2, t2, p3, t3, p4, t4) = asked.tables;
    convert(by, asked.number, p1, t1, p2, t2, p3, t3, p4, t4).compare(case)
}

pub(crate) fn offset_to_address<'s, F, A>(case: &mut Case<'s>, convert: F) -> Result<(), Broken>
where
    F: FnOnce(u16, u32, bool, &'s [u8], bool, &'s [u8], bool, &'s [u8], bool, &'s [u8]) -> A,
    A: Located,
    requires { F.IsAlwaysCallable convert }
{
    let asked = Asked::read(case)?;
    let section = asked.section;
    let (p1, t1, p2, t2, p3, t3, p4, t4) = asked.tables;
    convert(section, asked.number, p1, t1, p2, t2, p3, t3, p4, t4).compare(case)
}

pub(crate) fn offset_to_offset<'s, F, A>(case: &mut Case<'s>, convert: F) -> Result<(), Broken>
where
    F: FnOnce(bool, u16, u32, bool, &'s [u8], bool, &'s [u8], bool, &'s [u8], bool, &'s [u8]) -> A,
    A: Located,
    requires { F.IsAlwaysCallable convert }
{
    let asked = Asked::read(case)?;
    let by = asked.by_raw_size;
    let section = asked.section;
    let (p1, t1, p2, t2, p3, t3, p4, t4) = asked.tables;
    convert(by, section, asked.number, p1, t1, p2, t2, p3, t3, p4, t4).compare(case)
}
