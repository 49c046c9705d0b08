// Single translations.
ghost use Rattle.std.specs.Prelude.{◌≡◌, true};
ghost use Rattle.omap.specs.Lookup.{lookup_spec};
ghost use Rattle.omap.specs.Quick.{quick_spec};
ghost use Rattle.gillacorn.specs.Code.{value_answer};
ghost use Rattle.gillacorn.specs.Lookups.{quick_answer};

use crate::expected::{T, is};
use check::expect;
use gillacorn::lookups::{gillacorn_lookup, gillacorn_quick_lookup};

// The translation of an address by a present table.
fn translates(table: &[u8], address: u32, code: u32, value: u32)
    requires { value_answer (lookup_spec true table.now address) ≡ record { code = code; value = value } }
{
    is(gillacorn_lookup(true, table, address), code, value);
}

// The translation of an address by the search alone, and the records that it probes. By fields, for the reason in
// expected.rt.
fn found(table: &[u8], address: u32, code: u32, value: u32, probes: u32)
    requires { quick_answer (quick_spec true table.now address) ≡ record { code = code; value = value; probes = probes } }
{
    let told = gillacorn_quick_lookup(true, table, address);
    expect(told.code == code);
    expect(told.value == value);
    expect(told.probes == probes);
}

pub(crate) fn all() {
    full();
    quick();
}

#[tactic(auto, unfolding(crate::proofs::Opened::lookups))]
fn full() {
    let t: &[u8] = &T;
    translates(t, 0xFFF, 255, 0);
    translates(t, 0x1000, 0, 0x5000);
    translates(t, 0x10FF, 0, 0x50FF);
    translates(t, 0x1100, 255, 0);
    translates(t, 0x1250, 0, 0x4050);
    translates(t, 0x2000, 0, 0x5D80);
    // 10→FFFFFFF0
    let high = b"\x10\0\0\0\xF0\xFF\xFF\xFF";
    translates(high, 0x1F, 0, 0xFFFFFFFF);
    translates(high, 0x20, 4, 0);
}

#[tactic(auto, unfolding(crate::proofs::Opened::lookups))]
fn quick() {
    let t: &[u8] = &T;
    found(t, 0xFFF, 255, 0, 3);
    found(t, 0x10FF, 0, 0x50FF, 3);
    found(t, 0x1250, 0, 0x4050, 2);
    found(t, 0x1300, 0, 0x5080, 2);
    found(&t[..0], 0x1300, 255, 0, 0);
    // A refusal has no probes.
    found(&t[..31], 0x1300, 1, 0, 0);
    let high = b"\x10\0\0\0\xF0\xFF\xFF\xFF";
    found(high, 0x1F, 0, 0xFFFFFFFF, 1);
    found(high, 0x20, 4, 0, 0);
    // 1200→4000, 1000→5000: out of order, and not refused.
    let swapped = b"\x00\x12\0\0\x00\x40\0\0\x00\x10\0\0\x00\x50\0\0";
    found(swapped, 0x1100, 0, 0x5100, 1);
    found(swapped, 0xFFF, 255, 0, 2);
}
