// Bundles: a part of three bytes and an empty one, read, written, and damaged in each way that has a number.
ghost use Rattle.std.specs.Prelude.{◌≡◌, true, false, []};
ghost use Rattle.bundle.specs.Reading.{read_spec};
ghost use Rattle.bundle.specs.Writing.{lent_parts, write_spec, write_out};
ghost use Rattle.gillacorn.specs.Bundles.{spans_answer, bytes_answer};
ghost use Rattle.cases.specs.Lent.{sixty_nines};

use check::expect;
use gillacorn::bundles::{gillacorn_bundle_read, gillacorn_bundle_write};

// To-original has three bytes, the old frames are present and empty, and the other parts are absent.
const BUNDLE: [u8; 60] = *b"ABC\
    \xFF\xFF\xFF\xFF\xFF\xFF\xFF\xFF\
    \xFF\xFF\xFF\xFF\xFF\xFF\xFF\xFF\
    \0\0\0\0\x03\0\0\0\
    \xFF\xFF\xFF\xFF\xFF\xFF\xFF\xFF\
    \x03\0\0\0\0\0\0\0\
    \xFF\xFF\xFF\xFF\xFF\xFF\xFF\xFF\
    \x01\0\0\0BACK\x09";

// A file that is read: where to-original lies, and where the old frames do.
fn reads(file: &[u8], start: u32, length: u32, frames_start: u32, frames_length: u32)
    requires { ((spans_answer (read_spec file.now)).code ≡ 0)
        × (((spans_answer (read_spec file.now)).spans.to_original
        ≡ record { present = true; start = start; length = length })
        × ((spans_answer (read_spec file.now)).spans.old_frames
        ≡ record { present = true; start = frames_start; length = frames_length })) }
{
    let told = gillacorn_bundle_read(file);
    expect(told.code == 0);
    let spans = told.spans;
    let part = spans.to_original;
    expect(part.present);
    expect(part.start == start);
    expect(part.length == length);
    let frames = spans.old_frames;
    expect(frames.present);
    expect(frames.start == frames_start);
    expect(frames.length == frames_length);
}

fn refuses(file: &[u8], code: u32)
    requires { (spans_answer (read_spec file.now)).code ≡ code }
{
    let told = gillacorn_bundle_read(file);
    expect(told.code == code);
}

// The bundle of these two parts, written into sixty bytes.
fn writes(part: &[u8], code: u32, bytes: usize, left: &[u8; 60])
    requires { (bytes_answer (write_spec (lent_parts false [] false [] true part.now false [] true [] false []) 60)
        ≡ record { code = code; bytes = bytes })
        × (write_out (lent_parts false [] false [] true part.now false [] true [] false []) sixty_nines ≡ left.now) }
{
    let mut out = [9u8; 60];
    let none: &[u8] = &part[..0];
    let told = gillacorn_bundle_write(
        false, none, false, none, true, part, false, none, true, none, false, none, &mut out,
    );
    expect(told.code == code);
    expect(told.bytes == bytes);
    expect(out == *left);
}

#[tactic(auto, unfolding(crate::proofs::Opened::bundles))]
pub(crate) fn all() {
    let bundle = BUNDLE;
    reads(&bundle[..59], 0, 3, 3, 0);
    // A byte after the mark, and fewer bytes than a trailer has.
    refuses(&bundle, 8);
    refuses(&bundle[..55], 8);
    let mut later = BUNDLE;
    later[51] = 2;
    refuses(&later[..59], 9);
    // To-original begins at 1.
    let mut gap = BUNDLE;
    gap[19] = 1;
    refuses(&gap[..59], 10);
    writes(b"ABC", 0, 59, &bundle);
    let nines = [9u8; 60];
    writes(b"ABCDE", 5, 61, &nines);
}
