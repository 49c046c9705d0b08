// What the program `frames` prints: the frames of both tables in order of code start.
ghost use Rattle.std.specs.Prelude.{◌≡◌, ◌+◌, ◌*◌, ◌≤◌, length, MatchResult};
ghost use Rattle.lent.specs.Paper.{sum_number, told_value};
ghost use Rattle.lent.specs.Table.{bytes_of};
ghost use Rattle.report.specs.Text.{lines, refused_text, Printed};
ghost use Rattle.report.specs.Page.{HasRoom, Put};
ghost use Rattle.report.specs.Iteration.{iteration_left, yielded};
ghost use Rattle.report.specs.Frames.{frame_line, frames_printed, frames_or_refusal, frames_text, frames_room};
ghost use Rattle.report.specs.Frames.{how_many};

use crate::frame_line::frame_line;
use crate::input::check_length;
use crate::iteration::Iteration;
use crate::page::Page;
use framedata::FrameTable;
use lent::{Numbered, Refusal, SumRefusal};

// Room for the largest text: 4,097 lines of at most 80 bytes.
pub const FRAMES_ROOM: usize = 327760;

// How many frames an iteration over both tables yields.
fn tally(table: FrameTable) -> Result<usize, SumRefusal>
    ensures { told_value sum_number result
        ≡ how_many (frames_or_refusal (bytes_of table.entry.old) (bytes_of table.entry.new)) }
{
    let mut n = 0;
    for frame in Iteration::new(table) {
        frame?;
        n += 1;
    }
    Ok(n)
}

// The line of each frame that an iteration yields. A refusal has none: `tally` tells it before.
fn frame_lines(frames: Iteration, page: &mut Page)
    requires { HasRoom (80 * length (iteration_left frames)) page.old }
    ensures wrote { Put (lines frame_line (yielded (iteration_left frames.entry))) page.old page.new }
    ensures upper_bound { page.new.at ≤ page.old.at + 80 * length (iteration_left frames.entry) }
{
    for frame in frames {
        if let Ok(frame) = frame {
            frame_line(frame, page);
        }
    }
}

// The heading, the frames of both tables, and their number. A refusal leaves the page as it is.
fn listing(table: FrameTable, page: &mut Page) -> Result<(), SumRefusal>
    requires small { length (bytes_of table.old) + length (bytes_of table.new) ≤ 65532 }
    requires room { HasRoom frames_room page.old }
    ensures { let text = frames_printed (frames_or_refusal (bytes_of table.entry.old) (bytes_of table.entry.new)) in
        MatchResult result (λ _. Put text page.old page.new)
        (λ why. (page.new ≡ page.old) × (text ≡ refused_text (sum_number why))) }
{
    let n = tally(table)?;
    page.put(b"start    size     locals   params   prolog saved stack    program  type  flags\n");
    frame_lines(Iteration::new(table), page);
    page.numbered(b"frames ", n);
    Ok(())
}

// The same for an input of the old table's length, the old table and the new one.
#[tactic(auto, unfolding(crate::specs::Frames::frames_text))]
fn print(input: &[u8], page: &mut Page) -> Result<(), SumRefusal>
    requires { HasRoom frames_room page.old }
    ensures { MatchResult result (λ _. Put (frames_text input.now) page.old page.new)
        (λ why. (page.new ≡ page.old) × (frames_text input.now ≡ refused_text (sum_number why))) }
{
    check_length(input, 4)?;
    let old_length = lent::u32_at(input, 0) as usize;
    if old_length > input.len() - 4 {
        return Err(SumRefusal::Table(Refusal::Length));
    }
    let (old, new) = input[4..].split_at(old_length);
    let table = FrameTable {
        old: Some(old),
        new: Some(new),
    };
    listing(table, page)
}

// What the program `frames` prints for an input of the old table's length, the old table and the
// new one. The answer is the length of the text, or 0 where `out` is shorter than `FRAMES_ROOM`.
pub fn frames_text(input: &[u8], out: &mut [u8]) -> usize
    ensures { Printed frames_room (frames_text input.now) out.old result out.new }
{
    if out.len() < FRAMES_ROOM {
        return 0;
    }
    let mut page = Page { out, at: 0 };
    // As `window_text` ends, which says why.
    match print(input, &mut page) {
        Ok(()) => page.at,
        Err(why) => {
            page.refused(why.number());
            page.at
        }
    }
}
