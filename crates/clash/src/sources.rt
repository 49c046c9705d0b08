// The way back from a translation.
ghost use Rattle.std.specs.Prelude.{◌≡◌, ◌≤◌, ◌+◌, List, ◌∷◌, ◌++◌, ℕ};
ghost use Rattle.lent.specs.Words.{put};
ghost use Rattle.omap.specs.Ahead.{ahead};
ghost use Rattle.omap.specs.Told.{told_piece};
ghost use Rattle.clash.specs.Clash.{told_back, told_kept, back_spec, least_two};
ghost use Rattle.clash.specs.Shared.{source_in, sources_in};
ghost use Rattle.clash.specs.Kept.{so_far, so_far_of};

use crate::shared::source_of;
use lent::SumRefusal;
use omap::fitting::Fitting;
use omap::piece::Piece;
use omap::walk::Pieces;

// The one source of a translation, or the two least of several.
#[derive(Clone, Copy)]
pub enum Sources {
    One(u32),
    Two(u32, u32),
}

// One source more; of three or more the two least stay.
#[tactic(auto, unfolding(crate::specs::Clash::least_two))]
fn with_source(kept: Option<Sources>, x: u32) -> Sources
    ensures { (l : List ℕ) → least_two (so_far kept ++ (x ∷ l)) ≡ least_two (so_far_of result ++ l) }
{
    match kept {
        None => Sources::One(x),
        Some(Sources::One(w)) => Sources::Two(w, x),
        Some(Sources::Two(w, y)) => Sources::Two(w, y),
    }
}

// The sources with the one that a piece has of t, if it has one.
fn with_piece(kept: Option<Sources>, piece: Piece, t: u32) -> Option<Sources>
    requires { piece.at + piece.size ≤ 4294967295 }
    ensures { (l : List ℕ) → least_two (so_far kept ++ put (source_in t (told_piece piece)) l) ≡ least_two (so_far result ++ l) }
{
    let target = t as u64;
    if target < piece.to {
        return kept;
    }
    if piece.to + piece.size <= target {
        return kept;
    }
    Some(with_source(kept, source_of(piece, target)))
}

// The sources of t in a window: none, the one, or the two least.
fn walk_back(window: Pieces, t: u32) -> Option<Sources>
    ensures { told_kept result ≡ least_two (sources_in t (ahead window.entry)) }
{
    let mut kept = None;
    for piece in window {
        kept = with_piece(kept, piece, t);
    }
    kept
}

// The addresses of a..b that the table takes to t: none, the one, or the two least.
#[tactic(auto, unfolding(crate::specs::Clash::back_spec))]
pub fn way_back(table: &[u8], a: u32, b: u32, t: u32) -> Result<Option<Sources>, SumRefusal>
    ensures { told_back result ≡ back_spec table.now a b t }
{
    let window = Fitting::of(Some(table), a, b)?;
    Ok(walk_back(window.pieces, t))
}
