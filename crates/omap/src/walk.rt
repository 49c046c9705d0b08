// One walk over the pieces of a window: from the record that holds its start up to the first that begins at its end or
// later. Everything that goes over the pieces goes by `Pieces`.
ghost use Rattle.std.specs.Prelude.{◌≡◌, true};
ghost use Rattle.lent.specs.Order.{rising, keys};
ghost use Rattle.lent.specs.Table.{bytes_of};
ghost use Rattle.omap.specs.Walk.{Until};

use crate::piece::Piece;
use crate::records::{below, end_in, first_from};
use lent::{OMAP, Refusal, u32_at};

// The pieces of a window that are still to come, of a table in order or of none.
#[derive(Clone, Copy)]
pub struct Pieces<'t> {
    pub table: Option<&'t [u8]>,
    // The window's start, and its excluded end.
    pub a: u32,
    pub b: u32,
    // The place of the next record that can have a piece, and of the first that begins at b or later. An absent table
    // has its one record at place 0, and no other.
    pub next: usize,
    pub last: usize,
    ghost in_order: { rising (keys 8 (bytes_of table)) ≡ true },
    ghost until: { Until table b last },
}

// A piece, and the place after its record.
#[derive(Clone, Copy)]
struct Next {
    pub piece: Piece,
    pub after: usize,
}

impl<'t> Pieces<'t> {
    ghost use Rattle.omap.specs.Ahead.{Begun, GoesOver, NextIs};

    // The pieces of a..b, or why the table is refused.
    pub fn of(table: Option<&'t [u8]>, a: u32, b: u32) -> Result<Pieces<'t>, Refusal>
        ensures { Begun table.entry a b result }
    {
        if let Some(records) = table {
            OMAP.check(records)?;
        }
        Ok(Pieces::in_table(table, a, b))
    }

    // The same of a table in order. An absent one has one record, which takes a to itself.
    pub fn in_table(table: Option<&'t [u8]>, a: u32, b: u32) -> Pieces<'t>
        requires { rising (keys 8 (bytes_of table)) ≡ true }
        ensures { GoesOver table.entry a b result }
    {
        let Some(records) = table else {
            return Pieces {
                table,
                a,
                b,
                next: 0,
                last: 0,
            };
        };
        Pieces {
            table,
            a,
            b,
            next: first_from(records, a),
            last: below(records, b),
        }
    }

    // The first that is still to come. A record that is not mapped costs one load and one comparison.
    fn first(self) -> Option<Next>
        ensures { NextIs self.entry result }
    {
        let Some(table) = self.table else {
            return self.only();
        };
        for place in self.next..self.last {
            let after = place + 1;
            let target = u32_at(table, OMAP.width * place + 4);
            let mapped = target != 0;
            if mapped {
                let source = u32_at(table, OMAP.width * place);
                let from = self.a.max(source);
                let end = end_in(table, place, self.last, self.b);
                if from < end {
                    let piece = Piece {
                        at: from as u64,
                        size: (end - from) as u64,
                        to: (from - source) as u64 + target as u64,
                    };
                    return Some(Next { piece, after });
                }
            }
        }
        None
    }

    // With no table a..b is one piece, but for a window that is empty or starts at 0.
    fn only(self) -> Option<Next>
        requires { self.table ≡ None }
        ensures { NextIs self.entry result }
    {
        if self.next != 0 || self.a == 0 || self.b <= self.a {
            return None;
        }
        let piece = Piece {
            at: self.a as u64,
            size: (self.b - self.a) as u64,
            to: self.a as u64,
        };
        Some(Next { piece, after: 1 })
    }
}

impl Iterator for Pieces<'_> {
    ghost use Rattle.omap.specs.Ahead.{ahead, Gives};
    ghost use Rattle.std.specs.Iterator.{item_count};

    type Item = Piece;

    ghost next_gives = { Gives };

    ghost remaining = { item_count ahead };

    fn next(&mut self) -> Option<Piece> {
        let found = self.first()?;
        self.next = found.after;
        Some(found.piece)
    }
}
