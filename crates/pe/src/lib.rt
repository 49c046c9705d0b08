// PE section headers in lent bytes: a header by its place, its flags, and the name of a section.
#![tactic(auto)]

mod characteristics;
mod extent;
mod header;
mod naming;

pub use characteristics::SectionCharacteristics;
pub use extent::{ExtentBy, extent_at};
pub use header::{ImageSectionHeader, given_at, header_at, virtual_address_at};
pub use naming::{name, name_length};
