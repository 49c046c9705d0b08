// The frames of two tables. Standard input: the old table's length in bytes as u32, the old frames,
// then the new frames, all little-endian.
#![tactic(auto)]

// As the program `window`, which says why.
fn main(rt: HostRuntime) {
    // No heap. One byte more than the most that is taken, so that a longer input is seen.
    let mut input = [0u8; 65537];
    let Ok(n) = streams::take(&rt, &mut input) else {
        return;
    };
    let mut out = [0u8; report::FRAMES_ROOM];
    let length = report::frames_text(&input[..n], &mut out);
    streams::give(&rt, &out[..length]);
}
