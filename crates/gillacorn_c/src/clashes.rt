// The clash check and the way back. C has no Option: an answer begins with a code.
ghost use Rattle.std.specs.Prelude.{◌≡◌};
ghost use Rattle.clash.specs.Clash.{clash_spec, back_spec};
ghost use Rattle.gillacorn.specs.Clashes.{pair_answer, sources_answer};

use gillacorn::clashes::{PairAnswer, SourcesAnswer};

#[unsafe(no_mangle)]
pub extern "C" fn gillacorn_clash(table: &[u8], a: u32, b: u32) -> PairAnswer
    ensures { result ≡ pair_answer (clash_spec table.now a b) }
{
    gillacorn::clashes::gillacorn_clash(table, a, b)
}

#[unsafe(no_mangle)]
pub extern "C" fn gillacorn_way_back(table: &[u8], a: u32, b: u32, t: u32) -> SourcesAnswer
    ensures { result ≡ sources_answer (back_spec table.now a b t) }
{
    gillacorn::clashes::gillacorn_way_back(table, a, b, t)
}
