// Tables in lent bytes: their little-endian fields, read and written, the refusals 1, 2 and 3 that a table gives, and
// the search by halving. Everything above reads and writes its fields through this crate.
#![tactic(auto)]

mod fields;
mod output;
mod refusal;
mod searches;
mod table;

pub use fields::{u16_at, u32_at};
pub use output::{put_bytes, put_u32};
pub use refusal::{Numbered, Refusal, SumRefusal};
pub use searches::{Searched, binary_search};
pub use table::{
    Kind, NEW_FRAMES, OLD_FRAMES, OMAP, SECTIONS, bytes_or_none, if_present, in_order, shape,
};
