// A text as it is read: what is due tells whether each byte may come next.
ghost use Rattle.std.specs.Prelude.{◌≡◌, [], cond, length, map};
ghost use Rattle.std.proofs.Math.Option.{some};
ghost use Rattle.utf8.specs.Due.{following};
ghost use Rattle.utf8.specs.Reading.{Reading};
ghost use Rattle.utf8.specs.Text.{before_zero, if_utf8};
ghost use Rattle.utf8.specs.Utf8.{complete};

use crate::classes::{Follow, after};

// The length of the text before the first zero, or 0 where it is no UTF-8.
#[tactic(auto, using(crate::proofs::Reading::ascii_steps))]
pub fn text_length(s: &[u8]) -> usize
    ensures { result ≡ length (if_utf8 (before_zero s.now)) }
{
    // Most texts are ASCII, which needs no look at classes.
    for (i, b) in s.iter().enumerate() {
        if !matches!(*b, 0x01..=0x7F) {
            return if *b == 0 { i } else { length_by_class(s, i) };
        }
    }
    s.len()
}

// The same where all before `from` is read, and a character begins there.
#[inline(never)]
#[tactic(auto, using(crate::proofs::Reading::rest_steps))]
fn length_by_class(s: &[u8], from: usize) -> usize
    requires { Reading s.now (some []) from }
    ensures { result ≡ length (if_utf8 (before_zero s.now)) }
{
    let mut due: &[Follow] = &[];
    for (i, b) in s[from..].iter().enumerate() {
        if *b == 0 {
            return length_at(due, from + i);
        }
        let Some(rest) = after(due, *b) else {
            return 0;
        };
        due = rest;
    }
    length_at(due, s.len())
}

// The length of a text that ends where this is due: 0 where a character is cut.
fn length_at(due: &[Follow], end: usize) -> usize
    ensures { result ≡ cond (complete (some (map following due.now))) end 0 }
{
    if due.is_empty() { end } else { 0 }
}
