// The reader: where the parts of a file lie, and the bytes of a part.
ghost use Rattle.std.specs.Prelude.{◌≡◌, ◌+◌, ◌≤◌, length};
ghost use Rattle.lent.specs.Paper.{told_value};
ghost use Rattle.bundle.specs.Layout.{in_order};
ghost use Rattle.bundle.specs.Reading.{span_at, spans_at, touching, read_spec, read_number, bytes_of};

use crate::{ABSENT, MARK, MOST, Parts, Span, TRAILER, VERSION};
use lent::{Numbered, u32_at};

// Why a file is not read.
#[derive(Clone, Copy, Debug, PartialEq, Eq)]
pub enum ReadRefusal {
    // 4: it has more bytes than 32 bits count.
    TooLarge,
    // 8: the mark is wrong, or there is no room for a trailer.
    NotABundle,
    // 9
    OtherVersion,
    // 10: the parts do not begin at 0, touch each other and end at the trailer.
    Layout,
}

impl Numbered for ReadRefusal {
    ghost number_of = { read_number };

    fn number(self) -> u32 {
        match self {
            ReadRefusal::TooLarge => 4,
            ReadRefusal::NotABundle => 8,
            ReadRefusal::OtherVersion => 9,
            ReadRefusal::Layout => 10,
        }
    }
}

// The span whose fields stand at `at`.
#[tactic(auto, unfolding(crate::specs::Reading::span_of))]
fn span_at(file: &[u8], at: usize) -> Option<Span>
    requires { at + 8 ≤ length file.now }
    ensures { result ≡ span_at file.now at }
{
    let span = Span {
        start: u32_at(file, at),
        length: u32_at(file, at + 4),
    };
    if span == ABSENT { None } else { Some(span) }
}

// The spans of a trailer that begins at `at`. Six lines: a loop over the fields would need their names a second time.
fn spans_at(file: &[u8], at: usize) -> Parts<Option<Span>>
    requires { at + 56 ≤ length file.now }
    ensures { result ≡ spans_at file.now at }
{
    Parts {
        original_sections: span_at(file, at),
        transformed_sections: span_at(file, at + 8),
        to_original: span_at(file, at + 16),
        to_transformed: span_at(file, at + 24),
        old_frames: span_at(file, at + 32),
        new_frames: span_at(file, at + 40),
    }
}

// Whether the parts begin at 0, touch each other and end at `end`.
fn touch(spans: Parts<Option<Span>>, end: usize) -> bool
    ensures { result ≡ touching 0 end (in_order spans) }
{
    let mut place = 0;
    for part in spans.in_order() {
        if let Some(span) = part {
            if span.start as usize != place {
                return false;
            }
            place += span.length as usize;
        }
    }
    place == end
}

// Where the six parts of a file lie.
#[tactic(auto, using(crate::proofs::Readings::mark_told), unfolding(crate::specs::Reading::read_spec))]
pub fn read(file: &[u8]) -> Result<Parts<Option<Span>>, ReadRefusal>
    ensures { told_value read_number result ≡ read_spec file.now }
{
    if file.len() > MOST {
        return Err(ReadRefusal::TooLarge);
    }
    if file.len() < TRAILER || !file.ends_with(&MARK) {
        return Err(ReadRefusal::NotABundle);
    }
    let trailer = file.len() - TRAILER;
    if u32_at(file, trailer + 48) != VERSION {
        return Err(ReadRefusal::OtherVersion);
    }
    let spans = spans_at(file, trailer);
    if touch(spans, trailer) {
        Ok(spans)
    } else {
        Err(ReadRefusal::Layout)
    }
}

// The bytes of a part, in the file itself: none where it is absent, or where a span that was not read from this file
// reaches past it.
#[tactic(auto, unfolding(crate::specs::Reading::bytes_of))]
pub fn bytes_of(file: &[u8], span: Option<Span>) -> &[u8]
    ensures { result.now ≡ bytes_of file.now span }
{
    let Some(span) = span else {
        return &[];
    };
    let from = span.start as usize;
    let to = from + span.length as usize;
    file.get(from..to).unwrap_or(&[])
}
