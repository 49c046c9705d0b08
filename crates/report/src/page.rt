// A page of text, and what is put on it: words and numbers. Numbers are written by hand: nothing promises that `write!`
// ends with `Ok`, and these texts can't fail.
ghost use Rattle.std.specs.Prelude.{◌≡◌, ◌++◌, ◌+◌, ◌≤◌, ◌<◌, length};
ghost use Rattle.report.specs.Text.{glyph, digits, hex, places, numbered, refused_text};
ghost use Rattle.report.specs.Page.{HasRoom, Put};

use lent::put_bytes;

// Lent bytes, and the place that the text in them has come to.
#[derive(Drop)]
pub(crate) struct Page<'o> {
    pub(crate) out: &'o mut [u8],
    pub(crate) at: usize,
}

// A digit below 16 in ASCII.
#[tactic(auto, unfolding(crate::specs::Text::glyph))]
fn glyph(d: u64) -> u8
    requires { d < 16 }
    ensures { result ≡ glyph d }
{
    if d < 10 {
        b'0' + d as u8
    } else {
        b'A' + (d as u8 - 10)
    }
}

// The last digits of n, as many as there is room for: written from the last one on, and turned round.
fn write_digits(n: u64, base: u64, out: &mut [u8])
    requires { (2 ≤ base) × (base ≤ 16) }
    ensures { out.new ≡ digits base (length out.old) n }
{
    let mut left = n;
    for digit in out.iter_mut() {
        *digit = glyph(left % base);
        left /= base;
    }
    out.reverse();
}

// How many decimal digits n has.
#[tactic(auto, using(crate::proofs::Writing::places_by_power))]
fn places(n: usize) -> usize
    ensures { result ≡ places n }
{
    n.max(1).ilog10() as usize + 1
}

impl<'o> Page<'o> {
    // Bytes as they are.
    pub(crate) fn put(&mut self, bytes: &[u8])
        requires { HasRoom (length bytes.now) self.old }
        ensures { Put bytes.now self.old self.new }
    {
        self.at = put_bytes(bytes, self.out, self.at);
    }

    // The last `width` digits of n.
    fn digits(&mut self, n: u64, base: u64, width: usize)
        requires base { (2 ≤ base) × (base ≤ 16) }
        requires room { HasRoom width self.old }
        ensures wrote { Put (digits base width n) self.old self.new }
        ensures value { self.new.at ≡ self.old.at + width }
    {
        let end = self.at + width;
        write_digits(n, base, &mut self.out[self.at..end]);
        self.at = end;
    }

    // A number as `width` hex digits, and what stands after them.
    pub(crate) fn hex(&mut self, n: u32, width: usize, after: &[u8])
        requires { HasRoom (width + length after.now) self.old }
        ensures wrote { Put (hex width n ++ after.now) self.old self.new }
        ensures value { self.new.at ≡ self.old.at + (width + length after.now) }
    {
        self.digits(u64::from(n), 16, width);
        self.put(after);
    }

    // A word, a number in decimal, and a line feed.
    pub(crate) fn numbered(&mut self, word: &[u8], n: usize)
        requires { HasRoom (length word.now + (places n + 1)) self.old }
        ensures { Put (numbered word.now n) self.old self.new }
    {
        self.put(word);
        self.digits(n as u64, 10, places(n));
        self.put(b"\n");
    }

    // A refusal's line.
    #[tactic(auto, using(crate::proofs::Writing::places_one))]
    pub(crate) fn refused(&mut self, n: u32)
        requires { (n < 10) × HasRoom 10 self.old }
        ensures { Put (refused_text n) self.old self.new }
    {
        self.numbered(b"refused ", n as usize);
    }
}
