// The frames of both tables, one after the other.
ghost use Rattle.std.specs.Prelude.{◌≡◌, Some};
ghost use Rattle.lent.specs.Table.{bytes_of};
ghost use Rattle.framedata.specs.Step.{at_start};
ghost use Rattle.report.specs.Iteration.{answers_left, iteration_left};

use framedata::{FrameCursor, FrameData, FrameTable};
use lent::SumRefusal;

// What is left of an iteration over both tables: its cursor, none after a refusal, which ends it.
#[derive(Clone, Copy)]
pub(crate) struct Iteration<'t> {
    pub(crate) table: FrameTable<'t>,
    pub(crate) cursor: Option<FrameCursor>,
}

impl<'t> Iteration<'t> {
    // From the start of both tables.
    pub(crate) fn new(table: FrameTable<'t>) -> Self
        ensures { iteration_left result
            ≡ answers_left (bytes_of table.entry.old) (bytes_of table.entry.new) (Some at_start) }
    {
        Self {
            table,
            cursor: Some(FrameCursor::new()),
        }
    }
}

impl<'t> Iterator for Iteration<'t> {
    ghost use Rattle.std.specs.Iterator.{YieldsFirstBy, item_count};
    ghost use Rattle.framedata.specs.Frame.{told_decoded};
    ghost use Rattle.report.specs.Iteration.{iteration_left};

    type Item = Result<FrameData, SumRefusal>;

    ghost next_gives = { YieldsFirstBy told_decoded iteration_left };

    ghost remaining = { item_count iteration_left };

    #[tactic(auto, using(crate::proofs::Yields::left_by_step))]
    fn next(&mut self) -> Option<Result<FrameData, SumRefusal>> {
        let step = self.cursor?.step(self.table);
        match step.answer {
            Ok(Some(frame)) => {
                self.cursor = Some(step.cursor);
                Some(Ok(frame))
            }
            Ok(None) => None,
            Err(why) => {
                self.cursor = None;
                Some(Err(why))
            }
        }
    }
}
