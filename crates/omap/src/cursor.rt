// A cursor over the pieces of a window, by value: `RangeIter` of pdb, with its table beside it.
ghost use Rattle.std.specs.Prelude.{◌≡◌, is_some};
ghost use Rattle.lent.specs.Paper.{number, told_value};
ghost use Rattle.lent.specs.Table.{bytes_of};
ghost use Rattle.omap.specs.Records.{rest};
ghost use Rattle.omap.specs.Refusals.{step_number};
ghost use Rattle.omap.specs.Step.{start_spec, told_step, step_spec};
ghost use Rattle.omap.specs.Turn.{turn_with};
ghost use Rattle.omap.specs.Turned.{advanced, next_turn, turned_by};
ghost use Rattle.omap.specs.declared.cursor.StepRefusal.TheVariants.{Table};

use crate::lookups::{Entry, entry_at};
use crate::piece::{Piece, Range};
use lent::{Numbered, OMAP, Refusal, binary_search, bytes_or_none};

#[repr(C)]
#[derive(Clone, Copy)]
pub struct Cursor {
    // The start address of the part to come.
    pub address: u32,
    // The window's end.
    pub end: u32,
    // The record that holds the address.
    pub source: u32,
    pub target: u32,
    // The place of the next record to pull.
    pub place: usize,
}

// Why a step is refused.
#[derive(Clone, Copy, Debug, PartialEq, Eq)]
pub enum StepRefusal {
    Table(Refusal),
    // 6: the piece begins before its record's source.
    Early,
    // 4: the piece does not fit 32 bits.
    TooLarge,
}

// What a step answers: where a piece goes, or none if no piece is left. A cursor is handed back with every answer: the
// next one, or the one left behind; with a refusal, the one that was stepped. The list of forms in docs/DECISIONS.md
// has the struct, as it has `framedata::FrameStep`.
#[derive(Clone, Copy)]
pub struct Step {
    pub answer: Result<Option<Range>, StepRefusal>,
    pub cursor: Cursor,
}

// What one turn of a step finds: where a piece goes, unless the part is passed over, and the next cursor.
#[derive(Clone, Copy)]
struct Turned {
    pub range: Option<Range>,
    pub next: Cursor,
}

impl From<Refusal> for StepRefusal {
    ghost from_gives = { λ why refused. refused ≡ Table why };

    fn from(why: Refusal) -> StepRefusal {
        StepRefusal::Table(why)
    }
}

impl Numbered for StepRefusal {
    ghost number_of = { step_number };

    fn number(self) -> u32 {
        match self {
            StepRefusal::Table(why) => why.number(),
            StepRefusal::Early => 6,
            StepRefusal::TooLarge => 4,
        }
    }
}

// One turn of the cursor c with a record pulled, and the place after it.
fn turn(c: Cursor, pulled: Entry, place: usize) -> Result<Turned, StepRefusal>
    ensures { result ≡ turned_by (turn_with pulled place c) }
{
    let stop = pulled.source.min(c.end);
    let next = Cursor {
        address: stop,
        end: c.end,
        source: pulled.source,
        target: pulled.target,
        place,
    };
    if stop <= c.address {
        return Ok(Turned { range: None, next });
    }
    if c.target == 0 {
        return Ok(Turned { range: None, next });
    }
    if c.address < c.source {
        return Err(StepRefusal::Early);
    }
    let piece = Piece {
        at: c.address as u64,
        size: (stop - c.address) as u64,
        to: (c.address - c.source) as u64 + c.target as u64,
    };
    if piece.fits() {
        Ok(Turned {
            range: Some(piece.range()),
            next,
        })
    } else {
        Err(StepRefusal::TooLarge)
    }
}

// One turn with the next record of the table, or with one at the window's end.
fn pull(table: &[u8], c: Cursor) -> Result<Turned, StepRefusal>
    ensures { result ≡ turned_by (next_turn (rest table.now c.place) c) }
{
    let place = c.place;
    if place < table.len() / OMAP.width {
        turn(c, entry_at(table, place), place + 1)
    } else {
        let past = Entry {
            source: c.end,
            target: 0,
        };
        turn(c, past, place)
    }
}

impl Cursor {
    // The cursor over the pieces of a..b.
    #[tactic(auto, unfolding(crate::specs::Step::start_spec))]
    pub fn start(table: Option<&[u8]>, a: u32, b: u32) -> Result<Cursor, Refusal>
        ensures { told_value number result ≡ start_spec (is_some table.entry) (bytes_of table.entry) a b }
    {
        let Some(records) = table else {
            return Ok(Cursor {
                address: a,
                end: b,
                source: a,
                target: a,
                place: 0,
            });
        };
        OMAP.check(records)?;
        if b <= a {
            return Ok(Cursor {
                address: 0,
                end: 0,
                source: 0,
                target: 0,
                place: records.len() / OMAP.width,
            });
        }
        let place = binary_search(records, OMAP.width, a).place;
        // What lies before the first record is not mapped.
        let Entry { source, target } = match place.checked_sub(1) {
            Some(at) => entry_at(records, at),
            None => Entry {
                source: 0,
                target: 0,
            },
        };
        Ok(Cursor {
            address: a,
            end: b,
            source,
            target,
            place,
        })
    }

    // The next piece, on any table, in order or not.
    #[tactic(auto, unfolding(crate::specs::Step::step_spec))]
    pub fn step(mut self, table: Option<&[u8]>) -> Step
        ensures { told_step result ≡ step_spec (is_some table.entry) (bytes_of table.entry) self }
    {
        let from = self;
        match self.advance(table) {
            Ok(range) => Step {
                answer: Ok(range),
                cursor: self,
            },
            Err(why) => Step {
                answer: Err(why),
                cursor: from,
            },
        }
    }

    // Goes on to the next piece, past the parts that are not mapped.
    #[tactic(auto, unfolding(crate::specs::Step::step_spec))]
    fn advance(&mut self, table: Option<&[u8]>) -> Result<Option<Range>, StepRefusal>
        ensures { advanced self.old self.new result ≡ step_spec (is_some table.entry) (bytes_of table.entry) self.old }
    {
        let records = bytes_or_none(table);
        OMAP.shape(records)?;
        // Nothing is counted: a part that is not mapped is passed over, in a table that need not be in order.
        while self.address < self.end {
            let turned = pull(records, *self)?;
            *self = turned.next;
            if let Some(range) = turned.range {
                return Ok(Some(range));
            }
        }
        Ok(None)
    }
}
