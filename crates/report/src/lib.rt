// Texts for a person: what the programs print, from input bytes to output bytes.
#![tactic(auto)]

mod frame_line;
mod frames;
mod input;
mod iteration;
mod page;
mod window;

pub use frames::{FRAMES_ROOM, frames_text};
pub use window::{WINDOW_ROOM, window_text};
