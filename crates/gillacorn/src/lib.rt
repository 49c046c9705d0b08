// The face of Gillacorn for C and for Rust: the operations of the proved libraries, with answers that
// are structs of numbers. include/gillacorn.h declares them.
#![tactic(auto)]

pub mod addresses;
pub mod bundles;
pub mod clashes;
pub mod code;
pub mod frames;
pub mod headers;
pub mod lists;
pub mod lookups;
pub mod offsets;
pub mod sections;
pub mod windows;
