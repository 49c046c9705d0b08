// The clash check and the way back. A code stands beside each answer, and zeros where there is none: C has no Option.
ghost use Rattle.std.specs.Prelude.{◌≡◌};
ghost use Rattle.clash.specs.Clash.{told_clashed, clash_spec, told_back, back_spec};
ghost use Rattle.gillacorn.specs.Clashes.{pair_answer, sources_shown, sources_answer};

use crate::code::coded;
use clash::{Pair, Sources};
use lent::SumRefusal;

// The least two addresses that share a translation, beside the code.
#[repr(C)]
#[derive(Clone, Copy)]
pub struct PairAnswer {
    pub code: u32,
    pub first: u32,
    pub second: u32,
}

// The sources of a translation: how many are shown, and which.
#[repr(C)]
#[derive(Clone, Copy)]
pub struct SourcesAnswer {
    pub code: u32,
    pub sources: u32,
    pub first: u32,
    pub second: u32,
}

fn pair_answer(answer: Result<Option<Pair>, SumRefusal>) -> PairAnswer
    ensures { result ≡ pair_answer (told_clashed answer) }
{
    let none = Pair {
        first: 0,
        second: 0,
    };
    let (code, Pair { first, second }) = coded(answer, none);
    PairAnswer {
        code,
        first,
        second,
    }
}

// How many are shown, and which; 0 where there is no second.
fn sources_shown(found: Sources) -> (u32, u32, u32)
    ensures { result ≡ sources_shown found }
{
    match found {
        Sources::One(first) => (1, first, 0),
        Sources::Two(first, second) => (2, first, second),
    }
}

fn sources_answer(answer: Result<Option<Sources>, SumRefusal>) -> SourcesAnswer
    ensures { result ≡ sources_answer (told_back answer) }
{
    let shown = answer.map(|found| found.map(sources_shown));
    let (code, (sources, first, second)) = coded(shown, (0, 0, 0));
    SourcesAnswer {
        code,
        sources,
        first,
        second,
    }
}

pub fn gillacorn_clash(table: &[u8], a: u32, b: u32) -> PairAnswer
    ensures { result ≡ pair_answer (clash_spec table.now a b) }
{
    pair_answer(clash::clash(table, a, b))
}

pub fn gillacorn_way_back(table: &[u8], a: u32, b: u32, t: u32) -> SourcesAnswer
    ensures { result ≡ sources_answer (back_spec table.now a b t) }
{
    sources_answer(clash::way_back(table, a, b, t))
}
