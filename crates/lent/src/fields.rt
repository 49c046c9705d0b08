// A field of a table: the number of some bytes at a place.
ghost use Rattle.std.specs.Prelude.{◌≡◌, ◌+◌, ◌≤◌, length};
ghost use Rattle.lent.specs.Le.{le_at};

// The two bytes at `at`, which become one load wherever this is inlined.
#[tactic(auto, using(crate::proofs::Field::two_bytes))]
pub fn u16_at(s: &[u8], at: usize) -> u16
    requires { at + 2 ≤ length s.now }
    ensures { result ≡ le_at 2 s.now at }
{
    u16::from_le_bytes([s[at], s[at + 1]])
}

// The four bytes at `at`.
#[tactic(auto, using(crate::proofs::Field::four_bytes))]
pub fn u32_at(s: &[u8], at: usize) -> u32
    requires { at + 4 ≤ length s.now }
    ensures { result ≡ le_at 4 s.now at }
{
    u32::from_le_bytes([s[at], s[at + 1], s[at + 2], s[at + 3]])
}
