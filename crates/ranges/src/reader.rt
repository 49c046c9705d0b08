// A reader over the pieces of a window that keeps hold of its table's bytes, as `RangeIter` of pdb does. Its methods
// take it apart and leave the work to the cursor; `new`, `next` and `moved` are promises of docs/PROMISES.md, and so it
// is no `Iterator`.
ghost use Rattle.std.specs.Prelude.{◌≡◌, ◌/◌, length, is_some};
ghost use Rattle.lent.specs.Table.{bytes_of};
ghost use Rattle.omap.specs.Output.{told_windowed, window_spec, window_out};
ghost use Rattle.omap.specs.Step.{told_step, step_spec};

use omap::cursor::{Cursor, Step};
use omap::fitting::Fitting;
use omap::windows::WindowRefusal;

#[derive(Clone, Copy)]
pub struct RangeReader<'t> {
    pub table: Option<&'t [u8]>,
    pub cursor: Cursor,
}

impl<'t> RangeReader<'t> {
    // The reader of a table from a cursor on, as `Cursor::start` gives it for a window.
    pub fn new(table: Option<&'t [u8]>, cursor: Cursor) -> RangeReader<'t>
        ensures { (result.table ≡ table.entry) × (result.cursor ≡ cursor) }
    {
        RangeReader { table, cursor }
    }

    // The next piece, and the cursor after it.
    pub fn next(self) -> Step
        ensures { told_step result ≡ step_spec (is_some self.entry.table) (bytes_of self.entry.table) self.entry.cursor }
    {
        self.cursor.step(self.table)
    }

    // The reader once its cursor has gone on.
    pub fn moved(self, cursor: Cursor) -> RangeReader<'t>
        ensures { (result.table ≡ self.entry.table) × (result.cursor ≡ cursor) }
    {
        RangeReader {
            table: self.table,
            cursor,
        }
    }
}

// The pieces of a..b as pairs, as `omap::windows::window` writes them: a reader is stepped once for each.
#[tactic(auto, unfolding(omap::specs::Output::window_spec, omap::specs::Output::window_out, lent::specs::Room::room_for))]
pub fn drain(table: Option<&[u8]>, a: u32, b: u32, out: &mut [u32]) -> Result<usize, WindowRefusal>
    ensures answer { told_windowed result
        ≡ window_spec (is_some table.entry) (bytes_of table.entry) a b (length out.old / 2) }
    ensures output { out.new ≡ window_out (is_some table.entry) (bytes_of table.entry) a b out.old }
{
    let window = Fitting::of(table, a, b)?;
    if window.count > out.len() / 2 {
        return Err(WindowRefusal::Short(window.count));
    }
    // A window that is not refused is not refused at its start, and its cursor yields as many pieces as it has.
    let cursor = Cursor::start(table, a, b).unwrap();
    let mut reader = RangeReader::new(table, cursor);
    // By place: a reader is no iterator to zip with pairs of `out`. No step of these is refused or the last.
    for entry in 0..window.count {
        let step = reader.next();
        let range = step.answer.unwrap().unwrap();
        out[2 * entry] = range.start;
        out[2 * entry + 1] = range.end;
        reader = reader.moved(step.cursor);
    }
    Ok(window.count)
}
