// One file for the tables of a build: their bytes one after the other, then a trailer of 56 bytes that points back at
// them. A file that is not refused is the one bundle of the parts that it is read with.
#![tactic(auto)]

mod reader;
mod writer;

ghost use Rattle.std.specs.Prelude.{◌≡◌};
ghost use Rattle.bundle.specs.Layout.{in_order};

pub use reader::{ReadRefusal, bytes_of, read};
pub use writer::{WriteRefusal, write};

// Something of each of the six parts of a bundle: the bytes that are written, or the span that is read.
#[derive(Clone, Copy)]
pub struct Parts<T> {
    pub original_sections: T,
    pub transformed_sections: T,
    pub to_original: T,
    pub to_transformed: T,
    pub old_frames: T,
    pub new_frames: T,
}

impl<T: Copy> Parts<T> {
    // The six, in the bundle's order.
    pub(crate) fn in_order(self) -> [T; 6]
        ensures { result ≡ in_order self }
    {
        [
            self.original_sections,
            self.transformed_sections,
            self.to_original,
            self.to_transformed,
            self.old_frames,
            self.new_frames,
        ]
    }
}

// Where a part lies in its file.
#[derive(Clone, Copy, Debug, PartialEq, Eq)]
pub struct Span {
    pub start: u32,
    // How many bytes it has.
    pub length: u32,
}

// The bytes of the trailer, of which each part has eight.
pub(crate) const TRAILER: usize = 56;

// The fields of an absent part.
pub(crate) const ABSENT: Span = Span {
    start: 4294967295,
    length: 4294967295,
};

pub(crate) const VERSION: u32 = 1;

// The last four bytes of every bundle.
pub(crate) const MARK: [u8; 4] = *b"BACK";

// The longest bundle.
pub(crate) const MOST: usize = 4294967295;
