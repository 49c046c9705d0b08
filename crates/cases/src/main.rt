// Document 01's cases by number, starred or not. What each call below requires is the case itself,
// so that the check proves it by computation from the definitions; the call then asks the face, and
// the run compares once more. Codes are numbers, as the face tells them to C: 0 a value, 255 none, else
// the refusal. Addresses are hex, as in the document.
#![tactic(auto)]

mod addresses;
mod bundles;
mod clashes;
mod expected;
mod frames;
mod lookups;
mod windows;

fn main() {
    lookups::all();
    windows::all();
    windows::addresses();
    clashes::all();
    addresses::all();
    frames::merged();
    frames::begun();
    frames::attributes();
    bundles::all();
}
