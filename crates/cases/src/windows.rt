// Windows, written into a lent output of seven places: room for three pieces, and one place that
// holds no entry.
ghost use Rattle.std.specs.Prelude.{◌≡◌, true};
ghost use Rattle.omap.specs.Output.{window_spec, window_out};
ghost use Rattle.gillacorn.specs.Windows.{pieces_answer};
ghost use Rattle.cases.specs.Lent.{nines};

use crate::expected::T;
use check::expect;
use gillacorn::windows::gillacorn_window;

// The pieces of T in 0800..1400.
const THREE: [u32; 7] = [0x5000, 0x5100, 0x4000, 0x4100, 0x5080, 0x5180, 9];

// They have 300 addresses.
pub(crate) fn addresses() {
    let p = THREE;
    expect(p[1] - p[0] + (p[3] - p[2]) + (p[5] - p[4]) == 0x300);
}

// The window a..b of a present table: the answer, and what stands in the output then.
fn shows(table: &[u8], a: u32, b: u32, code: u32, pieces: usize, left: &[u32; 7])
    requires { (pieces_answer (window_spec true table.now a b 3) ≡ record { code = code; pieces = pieces })
        × (window_out true table.now a b nines ≡ left.now) }
{
    let mut out = [9u32; 7];
    let told = gillacorn_window(true, table, a, b, &mut out);
    expect(told.code == code);
    expect(told.pieces == pieces);
    expect(out == *left);
}

#[tactic(auto, unfolding(crate::proofs::Opened::windows))]
pub(crate) fn all() {
    let t: &[u8] = &T;
    shows(t, 0x800, 0x1400, 0, 3, &THREE);
    // 10→FFFFFFF0
    let high = b"\x10\0\0\0\xF0\xFF\xFF\xFF";
    let none = [9, 9, 9, 9, 9, 9, 9];
    shows(high, 0x10, 0x20, 4, 0, &none);
    let one = [0xFFFFFFF0, 0xFFFFFFFF, 9, 9, 9, 9, 9];
    shows(high, 0x10, 0x1F, 0, 1, &one);
    // 10→100, 20→110: touching pieces are not joined
    let touching = b"\x10\0\0\0\x00\x01\0\0\x20\0\0\0\x10\x01\0\0";
    let two = [0x100, 0x110, 0x110, 0x120, 9, 9, 9];
    shows(touching, 0x10, 0x30, 0, 2, &two);
}
