// Bytes and numbers written into lent bytes from a place on; each answers the place after what it wrote.
ghost use Rattle.std.specs.Prelude.{◌≡◌, ◌+◌, ◌≤◌, length};
ghost use Rattle.lent.specs.Le.{le_bytes};
ghost use Rattle.lent.specs.Room.{Wrote};

// A copy of some bytes.
pub fn put_bytes(bytes: &[u8], out: &mut [u8], at: usize) -> usize
    requires { at + length bytes.now ≤ length out.old }
    ensures { Wrote bytes.now out.old at result out.new }
{
    // Byte by byte: `copy_from_slice` asks whoever links the archive for memmove.
    for (i, byte) in bytes.iter().enumerate() {
        out[at + i] = *byte;
    }
    at + bytes.len()
}

// The four bytes of a number, the least first.
#[tactic(auto, using(crate::proofs::Encoded::four_stored))]
pub fn put_u32(value: u32, out: &mut [u8], at: usize) -> usize
    requires { at + 4 ≤ length out.old }
    ensures wrote { Wrote (le_bytes 4 value) out.old at result out.new }
    ensures value { result ≡ at + 4 }
{
    put_bytes(&value.to_le_bytes(), out, at)
}
