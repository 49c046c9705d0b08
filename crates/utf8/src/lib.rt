// Text in lent bytes: how long it is before the first zero, where it is UTF-8.
#![tactic(auto)]

mod classes;
mod text;

pub use text::text_length;
