// The merged iteration over both tables, in order of code start.
ghost use Rattle.std.specs.Prelude.{◌≡◌};
ghost use Rattle.lent.specs.Table.{bytes_of};
ghost use Rattle.framedata.specs.Frame.{told_framed};
ghost use Rattle.framedata.specs.Records.{old_record, new_record, old_at, new_at};
ghost use Rattle.framedata.specs.Step.{at_start, pick, step_spec, told_step, told_next};

use crate::frame::{FrameData, new_frame, old_frame};
use crate::tables::FrameTable;
use lent::{NEW_FRAMES, OLD_FRAMES, SumRefusal};

// Where an iteration stands: the place of the next record in each table.
#[repr(C)]
#[derive(Clone, Copy, Debug, PartialEq, Eq)]
pub struct FrameCursor {
    pub old_index: usize,
    pub new_index: usize,
}

// What one step answers, with the cursor to go on from: the next frame, none where no frame is left, or a refusal.
// Only a frame moves the cursor. The list of forms in docs/DECISIONS.md has the struct, as it has `omap::cursor::Step`.
#[derive(Clone, Copy, Debug, PartialEq, Eq)]
pub struct FrameStep {
    pub answer: Result<Option<FrameData>, SumRefusal>,
    pub cursor: FrameCursor,
}

// Which table's record comes next.
#[derive(Clone, Copy)]
pub enum Next {
    Old,
    New,
    // The two begin at one address: the new one, and the old one is passed over.
    Both,
}

impl FrameCursor {
    // The cursor at the start of both tables.
    pub fn new() -> Self
        ensures { result ≡ at_start }
    {
        Self {
            old_index: 0,
            new_index: 0,
        }
    }

    // Which of the records at the cursor comes next, if there is one.
    #[tactic(auto, unfolding(crate::specs::Step::lesser))]
    fn next_record(self, old: &[u8], new: &[u8]) -> Option<Next>
        ensures { told_next (old_record old.now self.old_index) (new_record new.now self.new_index) result
            ≡ pick (old_at old.now self.old_index) (new_at new.now self.new_index) }
    {
        let old_left = self.old_index < old.len() / OLD_FRAMES.width;
        let new_left = self.new_index < new.len() / NEW_FRAMES.width;
        match (old_left, new_left) {
            (false, false) => None,
            (true, false) => Some(Next::Old),
            (false, true) => Some(Next::New),
            (true, true) => {
                let old_start = lent::u32_at(old, OLD_FRAMES.width * self.old_index);
                let new_start = lent::u32_at(new, NEW_FRAMES.width * self.new_index);
                // Two tests: a match on `cmp` takes longer here, in the loop over all frames.
                if old_start < new_start {
                    Some(Next::Old)
                } else if new_start < old_start {
                    Some(Next::New)
                } else {
                    Some(Next::Both)
                }
            }
        }
    }

    // The next frame. The cursor moves past it, and stays where there is none to yield.
    #[tactic(auto, unfolding(crate::specs::Step::step_spec))]
    fn advance(&mut self, table: FrameTable) -> Result<Option<FrameData>, SumRefusal>
        ensures { record { answer = told_framed result; cursor = self.new }
            ≡ step_spec (bytes_of table.entry.old) (bytes_of table.entry.new) self.old }
    {
        table.shapes()?;
        let (old, new) = table.bytes();
        match self.next_record(old, new) {
            None => Ok(None),
            Some(Next::Old) => {
                let frame = old_frame(old, self.old_index)?;
                self.old_index += 1;
                Ok(Some(frame))
            }
            Some(Next::New) => {
                let frame = new_frame(new, self.new_index);
                self.new_index += 1;
                Ok(Some(frame))
            }
            Some(Next::Both) => {
                let frame = new_frame(new, self.new_index);
                self.old_index += 1;
                self.new_index += 1;
                Ok(Some(frame))
            }
        }
    }

    // The next frame in order of code start, from either table. Where both tables have a frame with
    // one code start, the new one is yielded alone.
    pub fn step(mut self, table: FrameTable) -> FrameStep
        ensures { told_step result ≡ step_spec (bytes_of table.entry.old) (bytes_of table.entry.new) self }
    {
        let answer = self.advance(table);
        FrameStep {
            answer,
            cursor: self,
        }
    }
}
