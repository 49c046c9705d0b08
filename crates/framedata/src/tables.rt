// Both tables together.
ghost use Rattle.std.specs.Prelude.{◌≡◌};
ghost use Rattle.lent.specs.Paper.{number, told_fault, told_value};
ghost use Rattle.lent.specs.Table.{bytes_of};
ghost use Rattle.framedata.specs.Tables.{shape_of_both, empty_spec};

use lent::{NEW_FRAMES, OLD_FRAMES, Refusal, bytes_or_none};

// The two tables that frames come from. An absent one counts as empty.
#[derive(Clone, Copy)]
pub struct FrameTable<'t> {
    pub old: Option<&'t [u8]>,
    pub new: Option<&'t [u8]>,
}

impl<'t> FrameTable<'t> {
    // The bytes of the old table, and of the new one.
    pub(crate) fn bytes(self) -> (&'t [u8], &'t [u8])
        ensures { (result.0.now ≡ bytes_of self.entry.old) × (result.1.now ≡ bytes_of self.entry.new) }
    {
        (bytes_or_none(self.old), bytes_or_none(self.new))
    }

    // Whether the lengths of both tables are right: the old one first.
    pub(crate) fn shapes(self) -> Result<(), Refusal>
        ensures { told_fault result ≡ shape_of_both (bytes_of self.entry.old) (bytes_of self.entry.new) }
    {
        let (old, new) = self.bytes();
        OLD_FRAMES.shape(old)?;
        NEW_FRAMES.shape(new)
    }

    // Indicates whether any frame data is available.
    #[tactic(auto, unfolding(crate::specs::Tables::empty_spec))]
    pub fn is_empty(self) -> Result<bool, Refusal>
        ensures { told_value number result ≡ empty_spec (bytes_of self.entry.old) (bytes_of self.entry.new) }
    {
        self.shapes()?;
        let (old, new) = self.bytes();
        Ok(old.len() / OLD_FRAMES.width == 0 && new.len() / NEW_FRAMES.width == 0)
    }
}
