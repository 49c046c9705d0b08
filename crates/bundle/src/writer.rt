// The writer: the bundle of six parts.
ghost use Rattle.std.specs.Prelude.{◌≡◌, ◌+◌, ◌≤◌, min, length};
ghost use Rattle.lent.specs.Room.{Wrote};
ghost use Rattle.bundle.specs.Layout.{in_order, bytes_in, span_from, spans_from, fields, trailer, joined, bundle_of};
ghost use Rattle.bundle.specs.Writing.{part_lent, parts_of, write_spec, write_out, write_number, told_written};

use crate::{ABSENT, MARK, MOST, Parts, Span, TRAILER, VERSION};
use lent::{Numbered, bytes_or_none, put_bytes, put_u32};

// Why a bundle is not written.
#[derive(Clone, Copy, Debug, PartialEq, Eq)]
pub enum WriteRefusal {
    // 4: it has more bytes than 32 bits count.
    TooLarge,
    // 5: so many bytes are needed.
    Short(usize),
}

impl Numbered for WriteRefusal {
    ghost number_of = { write_number };

    fn number(self) -> u32 {
        match self {
            WriteRefusal::TooLarge => 4,
            WriteRefusal::Short(_) => 5,
        }
    }
}

// The whole length of the bundle. Nothing wraps: six lengths of 64 bits may be lent.
fn whole_length(parts: Parts<Option<&[u8]>>) -> usize
    ensures { result ≡ min (length (bundle_of (parts_of parts.entry))) usize.MAX }
{
    let mut length = TRAILER;
    for part in parts.in_order() {
        length = length.saturating_add(bytes_or_none(part).len());
    }
    length
}

// The present parts, one after the other; where the last of them ends. The output and a place in it stay two arguments
// below, as they are in lent: a struct of both would only be taken apart again for lent's functions.
fn put_parts(parts: Parts<Option<&[u8]>>, out: &mut [u8]) -> usize
    requires { length (joined (in_order (parts_of parts))) ≤ length out.old }
    ensures { Wrote (joined (in_order (parts_of parts.entry))) out.old 0 result out.new }
{
    let mut at = 0;
    for part in parts.in_order() {
        at = put_bytes(bytes_or_none(part), out, at);
    }
    at
}

// Where a part lies that begins at `start`.
fn span_from(start: usize, part: Option<&[u8]>) -> Option<Span>
    requires { start + length (bytes_in (part_lent part)) ≤ 4294967295 }
    ensures { result ≡ span_from start (part_lent part.entry) }
{
    let bytes = part?;
    Some(Span {
        start: start as u32,
        length: bytes.len() as u32,
    })
}

// The fields of a part.
#[tactic(auto, unfolding(crate::specs::Layout::fields))]
fn put_span(span: Option<Span>, out: &mut [u8], at: usize) -> usize
    requires { at + 8 ≤ length out.old }
    ensures wrote { Wrote (fields span) out.old at result out.new }
    ensures value { result ≡ at + 8 }
{
    let span = span.unwrap_or(ABSENT);
    let next = put_u32(span.start, out, at);
    put_u32(span.length, out, next)
}

// The trailer.
fn put_trailer(parts: Parts<Option<&[u8]>>, out: &mut [u8], at: usize) -> usize
    requires room { at + 56 ≤ length out.old }
    requires count { length (joined (in_order (parts_of parts))) ≤ 4294967295 }
    ensures { Wrote (trailer (spans_from 0 (in_order (parts_of parts.entry)))) out.old at result out.new }
{
    let mut start = 0;
    let mut next = at;
    for part in parts.in_order() {
        next = put_span(span_from(start, part), out, next);
        start += bytes_or_none(part).len();
    }
    let end = put_u32(VERSION, out, next);
    put_bytes(&MARK, out, end)
}

// The bundle of six parts, written to the front of the output.
#[tactic(auto, using(crate::proofs::Lengths::length_bundle), unfolding(crate::specs::Writing::write_spec, crate::specs::Writing::write_out, lent::specs::Room::room_for,))]
pub fn write(parts: Parts<Option<&[u8]>>, out: &mut [u8]) -> Result<usize, WriteRefusal>
    ensures { (told_written result ≡ write_spec (parts_of parts.entry) (length out.old))
        × (out.new ≡ write_out (parts_of parts.entry) out.old) }
{
    let n = whole_length(parts);
    if n > MOST {
        return Err(WriteRefusal::TooLarge);
    }
    if n > out.len() {
        return Err(WriteRefusal::Short(n));
    }
    let end = put_parts(parts, out);
    Ok(put_trailer(parts, out, end))
}
