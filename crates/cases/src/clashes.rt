// The clash check and the way back. Answers are compared by their fields, for the reason in expected.rt.
ghost use Rattle.std.specs.Prelude.{◌≡◌};
ghost use Rattle.clash.specs.Clash.{clash_spec, back_spec};
ghost use Rattle.gillacorn.specs.Clashes.{pair_answer, sources_answer};

use crate::expected::T;
use check::expect;
use gillacorn::clashes::{gillacorn_clash, gillacorn_way_back};

// The least two addresses of a..b that share a translation.
fn clashes(table: &[u8], a: u32, b: u32, code: u32, first: u32, second: u32)
    requires { pair_answer (clash_spec table.now a b) ≡ record { code = code; first = first; second = second } }
{
    let told = gillacorn_clash(table, a, b);
    expect(told.code == code);
    expect(told.first == first);
    expect(told.second == second);
}

// The least sources of t in a..b, and how many are told.
fn goes_back(table: &[u8], a: u32, b: u32, t: u32, sources: u32, first: u32, second: u32)
    requires { sources_answer (back_spec table.now a b t) ≡ record { code = 0; sources = sources; first = first; second = second } }
{
    let told = gillacorn_way_back(table, a, b, t);
    expect(told.code == 0);
    expect(told.sources == sources);
    expect(told.first == first);
    expect(told.second == second);
}

pub(crate) fn all() {
    let t: &[u8] = &T;
    clashes(t, 0x800, 0x1400, 0, 0x1080, 0x1300);
    clashes(t, 0x1000, 0x1300, 255, 0, 0);
    goes_back(t, 0x800, 0x1400, 0x50A0, 2, 0x10A0, 0x1320);
    goes_back(t, 0x800, 0x1400, 0x5100, 1, 0x1380, 0);
}
