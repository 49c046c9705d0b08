// A mapped piece of a window.
ghost use Rattle.std.specs.Prelude.{◌≡◌, ◌+◌, ◌≤◌, ◌<◌};

// Where a piece starts in its window, how many addresses it has, and where they go, which may be above 32 bits.
#[derive(Clone, Copy)]
pub struct Piece {
    pub at: u64,
    pub size: u64,
    pub to: u64,
    ghost small: { to + size ≤ 12884901888 },
}

// Where a piece goes: its start there, and its excluded end.
#[repr(C)]
#[derive(Clone, Copy)]
pub struct Range {
    pub start: u32,
    pub end: u32,
}

impl Piece {
    ghost use Rattle.std.specs.Prelude.{true};
    ghost use Rattle.omap.specs.Output.{beside_start, fits};
    ghost use Rattle.omap.specs.Told.{as_range, told_piece};

    // Whether it fits 32 bits: refusal 4 if not. docs/PROMISES.md names it, and so `range` is no Option.
    #[tactic(auto, unfolding(crate::specs::Output::fits))]
    pub fn fits(self) -> bool
        ensures { result ≡ fits (told_piece self) }
    {
        self.to + self.size <= 4294967295
    }

    // What it shows beside its start.
    #[tactic(auto, unfolding(crate::specs::Output::beside_start))]
    pub fn beside_start(self) -> u64
        ensures { result ≡ beside_start (told_piece self) }
    {
        self.to + self.size
    }

    // Where it goes, if it fits.
    pub fn range(self) -> Range
        requires { fits (told_piece self) ≡ true }
        ensures { result ≡ as_range (told_piece self) }
    {
        Range {
            start: self.to as u32,
            end: self.beside_start() as u32,
        }
    }
}
