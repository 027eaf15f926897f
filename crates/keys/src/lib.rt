//! Coins and keys: drawn from bytes, written to files and read again, and chosen by the notary.
#![tactic(auto)]

mod files;
mod wires;
mod xors;

pub use wires::{Key, WireKeys};
pub use xors::{colour, xor};
