// The clash check.
ghost use Rattle.std.specs.Prelude.{◌≡◌, true, is_some};
ghost use Rattle.lent.specs.Words.{optional};
ghost use Rattle.omap.specs.Ahead.{ahead};
ghost use Rattle.clash.specs.Clash.{told_clashed, clash_spec};
ghost use Rattle.clash.specs.Shared.{clash_of};

use crate::shared::{first_shared, source_of};
use lent::SumRefusal;
use omap::fitting::Fitting;
use omap::walk::Pieces;

// Two window addresses that share a translation.
#[derive(Clone, Copy)]
pub struct Pair {
    pub first: u32,
    pub second: u32,
}

// The least pair of a window: that of the first piece which shares a target with a later one.
fn least_pair(window: Pieces) -> Option<Pair>
    requires { is_some window.table ≡ true }
    ensures { optional result ≡ clash_of (ahead window.entry) }
{
    // No `for`, which would keep to itself what is still to come: a piece is compared with that.
    let mut later = window;
    while let Some(piece) = later.next() {
        if let Some(shared) = first_shared(later, piece) {
            let first = source_of(piece, shared.target);
            let second = shared.source;
            return Some(Pair { first, second });
        }
    }
    None
}

// The least two addresses of a..b that share a translation: none where no two do, which is "single".
#[tactic(auto, unfolding(crate::specs::Clash::clash_spec))]
pub fn clash(table: &[u8], a: u32, b: u32) -> Result<Option<Pair>, SumRefusal>
    ensures { told_clashed result ≡ clash_spec table.now a b }
{
    let window = Fitting::of(Some(table), a, b)?;
    Ok(least_pair(window.pieces))
}
