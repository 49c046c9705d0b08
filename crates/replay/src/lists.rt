// The lent list of records. As pairs, they are what a window's output holds: `pairs-of-list` of
// proofs/Listed.antt. So the reader's `drain` is asked the same, into two places for each record.
use crate::case::{Broken, Case};
use crate::windows::{MARK, MOST, compare_pieces};
use gillacorn::lists::gillacorn_list;
use gillacorn::windows::pieces_answer;
use lent::if_present;
use ranges::Piece;
use ranges::reader::drain;
use std::array;

pub(crate) fn list(case: &mut Case<'_>) -> Result<(), Broken> {
    let mut by_reader = *case;
    drained(&mut by_reader)?;
    listed(case)?;
    case.agree_with(by_reader);
    Ok(())
}

fn drained(case: &mut Case<'_>) -> Result<(), Broken> {
    let (present, table) = case.table()?;
    let a = case.number()?;
    let b = case.number()?;
    let records: u16 = case.number()?;
    let mut room: [u32; MOST] = array::from_fn(|place| MARK + place as u32);
    let out = room.get_mut(..2 * usize::from(records)).ok_or(Broken)?;
    let ours = drain(if_present(present, table), a, b, out);
    compare_pieces(case, pieces_answer(ours))?;
    case.compare_all(out)
}

fn listed(case: &mut Case<'_>) -> Result<(), Broken> {
    let (present, table) = case.table()?;
    let a = case.number()?;
    let b = case.number()?;
    let records: u16 = case.number()?;
    let mut room: [Piece; MOST / 2] = array::from_fn(|record| {
        let start = MARK + 2 * record as u32;
        Piece {
            start,
            end: start + 1,
        }
    });
    let list = room.get_mut(..usize::from(records)).ok_or(Broken)?;
    let ours = gillacorn_list(present, table, a, b, list);
    compare_pieces(case, ours)?;
    for piece in list.iter() {
        case.compare_all(&[piece.start, piece.end])?;
    }
    Ok(())
}
