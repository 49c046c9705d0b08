// Bundles: the tables of a build in one file. A part that may be missing is a mark and bytes, or a mark and a span:
// C has no Option.
ghost use Rattle.std.specs.Prelude.{◌≡◌, length};
ghost use Rattle.lent.specs.Paper.{told_value};
ghost use Rattle.bundle.specs.Reading.{read_number, read_spec};
ghost use Rattle.bundle.specs.Writing.{lent_parts, told_written, write_spec, write_out};
ghost use Rattle.gillacorn.specs.Bundles.{span_shown, spans_shown, spans_answer, bytes_answer};

use crate::code::coded_value;
use bundle::{Parts, ReadRefusal, Span, WriteRefusal};
use lent::if_present;

// Where a part lies in its file.
#[repr(C)]
#[derive(Clone, Copy)]
pub struct PartSpan {
    pub present: bool,
    pub start: u32,
    pub length: u32,
}

#[repr(C)]
#[derive(Clone, Copy)]
pub struct PartSpans {
    pub original_sections: PartSpan,
    pub transformed_sections: PartSpan,
    pub to_original: PartSpan,
    pub to_transformed: PartSpan,
    pub old_frames: PartSpan,
    pub new_frames: PartSpan,
}

#[repr(C)]
#[derive(Clone, Copy)]
pub struct SpansAnswer {
    pub code: u32,
    pub spans: PartSpans,
}

#[repr(C)]
#[derive(Clone, Copy)]
pub struct BytesAnswer {
    pub code: u32,
    pub bytes: usize,
}

fn span_shown(span: Option<Span>) -> PartSpan
    ensures { result ≡ span_shown span }
{
    match span {
        Some(Span { start, length }) => PartSpan {
            present: true,
            start,
            length,
        },
        None => PartSpan {
            present: false,
            start: 0,
            length: 0,
        },
    }
}

fn spans_shown(spans: Parts<Option<Span>>) -> PartSpans
    ensures { result ≡ spans_shown spans }
{
    PartSpans {
        original_sections: span_shown(spans.original_sections),
        transformed_sections: span_shown(spans.transformed_sections),
        to_original: span_shown(spans.to_original),
        to_transformed: span_shown(spans.to_transformed),
        old_frames: span_shown(spans.old_frames),
        new_frames: span_shown(spans.new_frames),
    }
}

fn spans_answer(answer: Result<Parts<Option<Span>>, ReadRefusal>) -> SpansAnswer
    ensures { result ≡ spans_answer (told_value read_number answer) }
{
    // All parts absent, beside a refusal.
    let none = Parts {
        original_sections: None,
        transformed_sections: None,
        to_original: None,
        to_transformed: None,
        old_frames: None,
        new_frames: None,
    };
    let (code, spans) = coded_value(answer, none);
    SpansAnswer {
        code,
        spans: spans_shown(spans),
    }
}

pub fn gillacorn_bundle_read(file: &[u8]) -> SpansAnswer
    ensures { result ≡ spans_answer (read_spec file.now) }
{
    spans_answer(bundle::read(file))
}

// How many bytes are needed, as `pieces_answer` has how many pieces, and why they are two.
fn bytes_answer(answer: Result<usize, WriteRefusal>) -> BytesAnswer
    ensures { result ≡ bytes_answer (told_written answer) }
{
    let needed = match answer {
        Err(WriteRefusal::Short(bytes)) => bytes,
        _ => 0,
    };
    let (code, bytes) = coded_value(answer, needed);
    BytesAnswer { code, bytes }
}

#[tactic(auto, using(crate::proofs::Lent::marked_parts))]
pub fn gillacorn_bundle_write<'s>(
    has_original_sections: bool,
    original_sections: &'s [u8],
    has_transformed_sections: bool,
    transformed_sections: &'s [u8],
    has_to_original: bool,
    to_original: &'s [u8],
    has_to_transformed: bool,
    to_transformed: &'s [u8],
    has_old_frames: bool,
    old_frames: &'s [u8],
    has_new_frames: bool,
    new_frames: &'s [u8],
    out: &mut [u8],
) -> BytesAnswer
    ensures { (result ≡ bytes_answer (write_spec
        (lent_parts has_original_sections original_sections.now has_transformed_sections
        transformed_sections.now has_to_original to_original.now has_to_transformed
        to_transformed.now has_old_frames old_frames.now has_new_frames
        new_frames.now)
        (length out.old)))
        × (out.new ≡ write_out
        (lent_parts has_original_sections original_sections.now has_transformed_sections
        transformed_sections.now has_to_original to_original.now has_to_transformed
        to_transformed.now has_old_frames old_frames.now has_new_frames
        new_frames.now)
        out.old) }
{
    let parts = Parts {
        original_sections: if_present(has_original_sections, original_sections),
        transformed_sections: if_present(has_transformed_sections, transformed_sections),
        to_original: if_present(has_to_original, to_original),
        to_transformed: if_present(has_to_transformed, to_transformed),
        old_frames: if_present(has_old_frames, old_frames),
        new_frames: if_present(has_new_frames, new_frames),
    };
    bytes_answer(bundle::write(parts, out))
}
