// What the program `window` prints.
ghost use Rattle.std.specs.Prelude.{◌≡◌, ◌≤◌, length, MatchResult};
ghost use Rattle.omap.specs.Refusals.{window_number};
ghost use Rattle.report.specs.Page.{HasRoom, Put};
ghost use Rattle.report.specs.Text.{refused_text, Printed};
ghost use Rattle.report.specs.Window.{pair_line, pair_lines, table_text, window_text, window_room};

use crate::input::check_length;
use crate::page::Page;
use lent::Numbered;
use omap::windows::{WindowRefusal, window};

// Room for the largest text: 8,191 lines of 18 bytes, and the line that counts them.
pub const WINDOW_ROOM: usize = 147456;

// Two numbers on a line.
fn pair_line(x: u32, y: u32, page: &mut Page)
    requires { HasRoom 18 page.old }
    ensures { Put (pair_line x y) page.old page.new }
{
    page.hex(x, 8, b" ");
    page.hex(y, 8, b"\n");
}

// The line of each pair of numbers.
fn pair_lines(pairs: &[u32], page: &mut Page)
    requires { HasRoom (length (pair_lines pairs.now)) page.old }
    ensures { Put (pair_lines pairs.now) page.old page.new }
{
    for pair in pairs.chunks_exact(2) {
        pair_line(pair[0], pair[1], page);
    }
}

// The pieces of a window of a table, and their number. A refusal leaves the page as it is.
#[tactic(auto, using(crate::proofs::Windows::window_fits))]
fn listing(a: u32, b: u32, table: &[u8], page: &mut Page) -> Result<(), WindowRefusal>
    requires small { length table.now ≤ 65528 }
    requires room { HasRoom window_room page.old }
    ensures { MatchResult result (λ _. Put (table_text a b table.now) page.old page.new)
        (λ why. (page.new ≡ page.old) × (table_text a b table.now ≡ refused_text (window_number why))) }
{
    // No heap: `window` writes its pairs into what it is lent, and tells how many.
    let mut pairs = [0u32; 16384];
    let n = window(Some(table), a, b, &mut pairs)?;
    pair_lines(&pairs[..2 * n], page);
    page.numbered(b"pieces ", n);
    Ok(())
}

// The same for an input of a, b and the table.
#[tactic(auto, unfolding(crate::specs::Window::window_text))]
fn print(input: &[u8], page: &mut Page) -> Result<(), WindowRefusal>
    requires { HasRoom window_room page.old }
    ensures { MatchResult result (λ _. Put (window_text input.now) page.old page.new)
        (λ why. (page.new ≡ page.old) × (window_text input.now ≡ refused_text (window_number why))) }
{
    check_length(input, 8).map_err(WindowRefusal::Table)?;
    let a = lent::u32_at(input, 0);
    let b = lent::u32_at(input, 4);
    listing(a, b, &input[8..], page)
}

// What the program `window` prints for an input of a, b and an OMAP table. The answer is the
// length of the text, or 0 where `out` is shorter than `WINDOW_ROOM`.
pub fn window_text(input: &[u8], out: &mut [u8]) -> usize
    ensures { Printed window_room (window_text input.now) out.old result out.new }
{
    if out.len() < WINDOW_ROOM {
        return 0;
    }
    let mut page = Page { out, at: 0 };
    // As `frames_text` ends: one function for both would take `print` as a closure, and have to tell its promise of it.
    match print(input, &mut page) {
        Ok(()) => page.at,
        Err(why) => {
            page.refused(why.number());
            page.at
        }
    }
}
