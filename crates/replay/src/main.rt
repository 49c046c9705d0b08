// Replays a fixed sample of the Rust's answers: asks our operations what the Rust was asked, and
// compares. data/replay.bin holds the sample; rust/differential/src/replay.rs has its format and how
// it is made.
#![tactic(auto)]

mod addresses;
mod case;
mod clashes;
mod frames;
mod headers;
mod lists;
mod lookups;
mod operation;
mod report;
mod windows;

ghost use Rattle.std.specs.Prelude.{◌≡◌, ◌<◌, ◌≤◌, length, IfOk, OnOk};

use case::{Broken, Case};
use operation::Operation;
use report::Report;
use std::fs::File;
use std::io;
use std::io::Read;

// A file has fewer bytes than this.
const MOST: usize = 1048576;

// A case begins with who judged its answer: pdb, the rules, or a count. Nothing here depends on which.
const JUDGES: u8 = 3;

// This many differing cases are shown.
const SHOWN: u64 = 10;

// Takes the first case off a file: its operation, and whether our answer is the one in it.
fn next_case(file: &mut &[u8]) -> Result<(Operation, bool), Broken>
    ensures { OnOk result (length file.new.now < length file.old.now) }
{
    let [number, low, high, rest @ ..] = *file else {
        return Err(Broken);
    };
    let length = u16::from_le_bytes([*low, *high]);
    let (bytes, rest) = rest.split_at_checked(usize::from(length)).ok_or(Broken)?;
    *file = rest;
    let operation = Operation::try_from(*number)?;
    Ok((operation, compared(operation, bytes)?))
}

// Whether our answer to a case is the one in it.
fn compared(operation: Operation, bytes: &[u8]) -> Result<bool, Broken> {
    let mut case = Case::new(bytes);
    let judge: u8 = case.number()?;
    if judge >= JUDGES {
        return Err(Broken);
    }
    operation.ask(&mut case)?;
    case.end()
}

// Replays the cases of a file, up to the first one that breaks the format. Of an output that can't be written nothing
// is told.
fn replay(rt: &impl Print, file: &[u8]) {
    let mut report = Report::new();
    let mut rest = file;
    // No `for`: how long a case is, it tells itself.
    while !rest.is_empty() {
        let at = file.len() - rest.len();
        let Ok((operation, agrees)) = next_case(&mut rest) else {
            let _ = println!(rt; "bad case at {at}");
            return;
        };
        report.count(operation, agrees);
        if !agrees && report.differing() <= SHOWN {
            let _ = println!(rt; "differs at {at}: {operation}");
        }
    }
    report.print(rt);
}

// Fixed memory: with a Vec the check would rest on C's functions for the heap too.
fn buffer() -> [u8; MOST]
    ensures { 1048576 ≡ length result }
{
    [0; MOST]
}

// Reads a file until it ends or buf is full, and gives the number of bytes. `io::copy` would hold a buffer of its own on
// the stack.
fn fill(source: &mut File, buf: &mut [u8]) -> io::Result<usize>
    ensures { IfOk result (λ n. n ≤ length buf.new) }
{
    let mut done = 0;
    while done < buf.len() {
        let more = source.read(&mut buf[done..])?;
        if more == 0 {
            break;
        }
        done += more;
    }
    Ok(done)
}

fn main(rt: HostRuntime) -> io::Result<()> {
    let Ok(mut source) = File::open(&rt, "replay.bin") else {
        let _ = println!(rt; "no file replay.bin");
        return Ok(());
    };
    let mut buffer = buffer();
    let length = fill(&mut source, &mut buffer)?;
    match buffer.get(..length) {
        Some(file) if length < MOST => replay(&rt, file),
        _ => {
            let _ = println!(rt; "the file is too large");
        }
    }
    Ok(())
}
