// Windows, and cursors over them.
use crate::case::{Broken, Case};
use gillacorn::windows::{
    PiecesAnswer, gillacorn_cursor_start, gillacorn_cursor_step, gillacorn_window,
};
use omap::cursor::Cursor;
use std::array;

// The places that an output of a case has at most.
pub const MOST: usize = 128;

// What stands in the first place of an output at entry; each further place has one more.
pub const MARK: u32 = 0xA5A5A500;

pub(crate) fn window(case: &mut Case<'_>) -> Result<(), Broken> {
    let (present, table) = case.table()?;
    let a = case.number()?;
    let b = case.number()?;
    let places: u16 = case.number()?;
    let mut room: [u32; MOST] = array::from_fn(|place| MARK + place as u32);
    let out = room.get_mut(..usize::from(places)).ok_or(Broken)?;
    let ours = gillacorn_window(present, table, a, b, out);
    compare_pieces(case, ours)?;
    case.compare_all(out)
}

// What is answered about a window, before the output at exit.
pub(crate) fn compare_pieces(case: &mut Case<'_>, ours: PiecesAnswer) -> Result<(), Broken> {
    case.compare_byte(ours.code)?;
    case.compare(ours.pieces)
}

pub(crate) fn cursor_start(case: &mut Case<'_>) -> Result<(), Broken> {
    let (present, table) = case.table()?;
    let ours = gillacorn_cursor_start(present, table, case.number()?, case.number()?);
    case.compare_byte(ours.code)?;
    compare_cursor(case, ours.cursor)
}

pub(crate) fn cursor_step(case: &mut Case<'_>) -> Result<(), Broken> {
    let (present, table) = case.table()?;
    let cursor = Cursor {
        address: case.number()?,
        end: case.number()?,
        source: case.number()?,
        target: case.number()?,
        place: case.number()?,
    };
    let ours = gillacorn_cursor_step(cursor, present, table);
    case.compare_byte(ours.code)?;
    case.compare_all(&[ours.start, ours.end])?;
    compare_cursor(case, ours.cursor)
}

fn compare_cursor(case: &mut Case<'_>, ours: Cursor) -> Result<(), Broken> {
    case.compare_all(&[ours.address, ours.end, ours.source, ours.target])?;
    case.compare(ours.place)
}
