// What the face tells, compared with what a case says.
ghost use Rattle.std.specs.Prelude.{◌≡◌};

use check::expect;
use gillacorn::code::ValueAnswer;

// The table T: 1000→5000, 1100→0, 1200→4000, 1300→5080.
pub const T: [u8; 32] = *b"\x00\x10\0\0\x00\x50\0\0\
    \x00\x11\0\0\x00\x00\0\0\
    \x00\x12\0\0\x00\x40\0\0\
    \x00\x13\0\0\x80\x50\0\0";

// An answer is compared by its fields, here and in the cases: a derived PartialEq would be a function of the face for
// each struct, for these lines alone, and would not tell which field of a case is another.
pub(crate) fn is(told: ValueAnswer, code: u32, value: u32)
    requires { told ≡ record { code = code; value = value } }
{
    expect(told.code == code);
    expect(told.value == value);
}
