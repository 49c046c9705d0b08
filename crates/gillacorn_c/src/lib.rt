// The face of Gillacorn as C links it: each function of the library `gillacorn` that answers in structs of numbers, under
// its own name and with its own promise. include/gillacorn.h declares them.
#![tactic(auto)]

mod addresses;
mod bundles;
mod clashes;
mod frames;
mod headers;
mod lists;
mod lookups;
mod offsets;
mod sections;
mod windows;
