// The pieces of a window. Standard input: a, b as u32, then an OMAP table, all little-endian.
#![tactic(auto)]

// As the program `frames`: one function for both would have to ask of the text, as a closure, that it is within `out`.
fn main(rt: HostRuntime) {
    // No heap. One byte more than the most that is taken, so that a longer input is seen.
    let mut input = [0u8; 65537];
    let Ok(n) = streams::take(&rt, &mut input) else {
        return;
    };
    let mut out = [0u8; report::WINDOW_ROOM];
    let length = report::window_text(&input[..n], &mut out);
    streams::give(&rt, &out[..length]);
}
