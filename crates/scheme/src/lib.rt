//! The pairing of coins; and, in specs/, the scheme as terms and the statement of what can be known, which `pair` carries.
#![tactic(auto)]

mod pairing;

pub use pairing::{Pairing, pair};
