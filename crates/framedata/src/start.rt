// Starting an iteration at an address.
ghost use Rattle.std.specs.Prelude.{◌≡◌, ◌≤◌, true};
ghost use Rattle.lent.specs.Paper.{number, told_value};
ghost use Rattle.lent.specs.Table.{bytes_of};
ghost use Rattle.lent.specs.Order.{rising, keys};
ghost use Rattle.framedata.specs.Records.{spans};
ghost use Rattle.framedata.specs.Start.{place_spec, start_spec};

use crate::cursor::FrameCursor;
use crate::tables::FrameTable;
use lent::{NEW_FRAMES, OLD_FRAMES, Refusal};

// Where one table in order, of either kind, is entered for an address.
#[tactic(auto, using(crate::proofs::Entering::place_found))]
fn place_at(table: &[u8], width: usize, address: u32) -> usize
    requires wide { 8 ≤ width }
    requires in_order { rising (keys width table.now) ≡ true }
    ensures { result ≡ place_spec address (spans width table.now) }
{
    let after = lent::binary_search(table, width, address).place;
    let Some(place) = after.checked_sub(1) else {
        return 0;
    };
    let at = width * place;
    let start = lent::u32_at(table, at);
    let size = lent::u32_at(table, at + 4);
    if start == address || address - start < size {
        return place;
    }
    after
}

impl<'t> FrameTable<'t> {
    // The cursor whose first frames cover an address or, where no frame covers it, follow it.
    #[tactic(auto, unfolding(crate::specs::Start::start_spec), using(crate::proofs::Entering::tables_in_order))]
    pub fn start_at(self, address: u32) -> Result<FrameCursor, Refusal>
        ensures { told_value number result
            ≡ start_spec address (bytes_of self.entry.old) (bytes_of self.entry.new) }
    {
        let (old, new) = self.bytes();
        OLD_FRAMES.check(old)?;
        NEW_FRAMES.check(new)?;
        Ok(FrameCursor {
            old_index: place_at(old, OLD_FRAMES.width, address),
            new_index: place_at(new, NEW_FRAMES.width, address),
        })
    }
}
