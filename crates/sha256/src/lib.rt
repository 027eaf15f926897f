//! SHA-256, and the pads that are made with it.
#![tactic(auto)]

mod compression;
mod rows;
mod texts;
mod words;

pub use rows::row_pad;
pub use texts::digest;
