// Standard input and output for the programs: an input is taken whole or not at all, and a read or a
// write that fails is told on standard error. That a failed read is seen can't be said in a contract,
// since the runtime's own says nothing of what it read; tests/programs.sh tries it.
#![tactic(auto)]

ghost use Rattle.streams.specs.Taken.{Held};

use std::io;
use std::io::Read;

// Reads standard input until it ends or buf is full, and tells how many bytes that were. Where a read fails, no answer
// may be made of what came before it.
pub fn take(rt: &(impl Input + Eprint), buf: &mut [u8]) -> io::Result<usize>
    ensures { Held result buf.new }
{
    let mut input = rt.reader();
    let mut done = 0;
    // Each read has room for all that may still come: `io::copy` reads by 8,192 bytes, and of a longer message on a socket
    // the rest is lost without a word.
    while done < buf.len() {
        let more = input.read(&mut buf[done..]).inspect_err(|_| {
            let _ = rt.eprintln("failed: standard input can't be read");
        })?;
        if more == 0 {
            return Ok(done);
        }
        done += more;
    }
    Ok(done)
}

// Writes all of a text to standard output.
pub fn give(rt: &(impl Print + Eprint), text: &[u8]) {
    if rt.write_all(text).is_err() {
        let _ = rt.eprintln("failed: standard output can't be written");
    }
}
