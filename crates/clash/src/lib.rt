// Clashes, where two different addresses of a window share a translation, and the way back from a translation.
#![tactic(auto)]

mod pairs;
mod shared;
mod sources;

pub use pairs::{Pair, clash};
pub use sources::{Sources, way_back};
