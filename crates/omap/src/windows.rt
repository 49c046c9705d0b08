// The pieces of a window: counted, and written as pairs of start and end.
ghost use Rattle.std.specs.Prelude.{◌≡◌, ◌/◌, length, is_some};
ghost use Rattle.lent.specs.Paper.{sum_number, told_value};
ghost use Rattle.lent.specs.Table.{bytes_of};
ghost use Rattle.omap.specs.Output.{count_spec, told_windowed, window_spec, window_out};
ghost use Rattle.omap.specs.Refusals.{of_sum, window_number};

use crate::fitting::Fitting;
use lent::{Numbered, Refusal, SumRefusal};

// Why the writing call is refused.
#[derive(Clone, Copy, Debug, PartialEq, Eq)]
pub enum WindowRefusal {
    Table(Refusal),
    // 4: a piece does not fit 32 bits.
    TooLarge,
    // 5: so many entries are needed.
    Short(usize),
}

impl From<SumRefusal> for WindowRefusal {
    ghost from_gives = { λ why refused. refused ≡ of_sum why };

    fn from(why: SumRefusal) -> WindowRefusal {
        match why {
            SumRefusal::Table(why) => WindowRefusal::Table(why),
            SumRefusal::TooLarge => WindowRefusal::TooLarge,
        }
    }
}

impl Numbered for WindowRefusal {
    ghost number_of = { window_number };

    fn number(self) -> u32 {
        match self {
            WindowRefusal::Table(why) => why.number(),
            WindowRefusal::TooLarge => 4,
            WindowRefusal::Short(_) => 5,
        }
    }
}

// The number of pieces of a..b: what the writing call needs room for.
#[tactic(auto, unfolding(crate::specs::Output::count_spec))]
pub fn count(table: Option<&[u8]>, a: u32, b: u32) -> Result<usize, SumRefusal>
    ensures { told_value sum_number result ≡ count_spec (is_some table.entry) (bytes_of table.entry) a b }
{
    Ok(Fitting::of(table, a, b)?.count)
}

// The pieces of a..b as pairs of start and end, in source order. A refused call writes nothing.
#[tactic(auto, unfolding(crate::specs::Output::window_spec, crate::specs::Output::window_out, lent::specs::Room::room_for))]
pub fn window(table: Option<&[u8]>, a: u32, b: u32, out: &mut [u32]) -> Result<usize, WindowRefusal>
    ensures answer { told_windowed result
        ≡ window_spec (is_some table.entry) (bytes_of table.entry) a b (length out.old / 2) }
    ensures output { out.new ≡ window_out (is_some table.entry) (bytes_of table.entry) a b out.old }
{
    let window = Fitting::of(table, a, b)?;
    if window.count > out.len() / 2 {
        return Err(WindowRefusal::Short(window.count));
    }
    window.fill(out);
    Ok(window.count)
}
