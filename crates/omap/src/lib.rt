// OMAP tables: the translation of a single address, the pieces of a window, and a cursor over them.
#![tactic(auto)]

pub mod cursor;
pub mod fitting;
pub mod lookups;
pub mod piece;
pub mod records;
pub mod walk;
pub mod windows;

pub use lookups::{Entry, Quick, lookup, quick_lookup, record_at};
