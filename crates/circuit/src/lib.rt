//! Sheets, which are boolean circuits: their bytes, and what they mean.
#![tactic(auto)]

mod bytes;
mod gates;
mod reading;
mod refusals;
mod running;
mod sheets;
mod writing;

pub use gates::Gate;
pub use refusals::{Failure, Refusal};
pub use sheets::Sheet;
