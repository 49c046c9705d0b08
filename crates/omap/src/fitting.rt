// The pieces of a window that is not refused.
ghost use Rattle.std.specs.Prelude.{◌≡◌, true, length};
ghost use Rattle.omap.specs.Output.{all_fit};
ghost use Rattle.omap.specs.Ahead.{ahead};

use crate::piece::Range;
use crate::walk::Pieces;
use lent::SumRefusal;

// The pieces of a window, all of which fit 32 bits, and how many there are.
#[derive(Clone, Copy)]
pub struct Fitting<'t> {
    pub pieces: Pieces<'t>,
    pub count: usize,
    ghost fitting: { all_fit (ahead pieces) ≡ true },
    ghost counted: { count ≡ length (ahead pieces) },
}

impl<'t> Fitting<'t> {
    ghost use Rattle.std.specs.Prelude.{◌*◌, ◌≤◌};
    ghost use Rattle.lent.specs.Room.{written_over};
    ghost use Rattle.omap.specs.Output.{flat};
    ghost use Rattle.omap.specs.Fitted.{Counts};

    // The pieces of a..b: refusals 1 to 3 of the table, and 4 of a piece.
    #[tactic(auto, unfolding(crate::specs::Output::window_fault))]
    pub fn of(table: Option<&'t [u8]>, a: u32, b: u32) -> Result<Fitting<'t>, SumRefusal>
        ensures { Counts table.entry a b result }
    {
        let pieces = Pieces::of(table, a, b)?;
        let mut count = 0;
        for piece in pieces {
            if !piece.fits() {
                return Err(SumRefusal::TooLarge);
            }
            count += 1;
        }
        Ok(Fitting { pieces, count })
    }

    // Writes them as pairs of start and end. By place: no contract tells what stands in `out` after an adapter of its
    // mutable chunks.
    pub(crate) fn fill(self, out: &mut [u32])
        requires { 2 * self.count ≤ length out.old }
        ensures { out.new ≡ written_over (flat (ahead self.entry.pieces)) out.old }
    {
        for (i, piece) in self.pieces.enumerate() {
            let Range { start, end } = piece.range();
            out[2 * i] = start;
            out[2 * i + 1] = end;
        }
    }
}
