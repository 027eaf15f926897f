//! Tests of sheets and pairing, on good and on damaged texts.
#![tactic(auto)]

#[cfg(test)]
mod answers;
#[cfg(test)]
mod pairs;
#[cfg(test)]
mod refused;
#[cfg(test)]
mod runs;
