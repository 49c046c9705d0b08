// Frames: the legacy FPO table and the newer frame data table, decoded, and yielded as one.
#![tactic(auto)]

mod attributes;
mod cursor;
mod frame;
mod start;
mod tables;

pub use attributes::FrameType;
pub use cursor::{FrameCursor, FrameStep};
pub use frame::{FrameData, new_frame_at, old_frame_at};
pub use tables::FrameTable;
