//! What a maker (garbler) sends: keys, tables and meanings.
#![tactic(auto)]

mod files;

pub use files::Garbled;
