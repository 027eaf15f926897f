//! Prints the coins that pair those of one input with those of another, or the first output in which the two differ.
#![tactic(auto)]

use circuit::{Failure, Refusal, Sheet};
use scheme::Pairing;
use std::alloc::AllocError;
use std::fs::File;
use std::io::Read;
use std::process::ExitCode;
use std::{env, io};
use thiserror::Error;

const HELP: &str = "usage: pair SHEET FIRST SECOND COINS

  SHEET    a sheet
  FIRST    the values of all inputs, the opener's first: a byte 0 or 1 for each
  SECOND   other values of all inputs
  COINS    a line of 0 and 1: a coin for each wire

If FIRST and SECOND give one result, prints the coins under which every wire
has, for SECOND, the colour that it has for FIRST under COINS: a line of 0 and
1. Else prints the first output that differs, counted from 0: `output N
differs`.

What does not fit is refused: `refused: N` on standard error, and status 1.
  1  an unknown kind; a text that is cut or has bytes left over; coins that are
     not one 0 or 1 for each wire
  2  a count out of its range
  3  a wire that is not made yet
  4  a gate's byte above 15
  7  values that are not one byte 0 or 1 for each input";

// Why there is nothing to print.
#[derive(Debug, Drop, Error)]
enum Stop {
    #[error("usage: pair SHEET FIRST SECOND COINS (more by pair --help)")]
    Usage,
    #[error("{0}")]
    Refused(Refusal),
    #[error("pair: out of memory")]
    Memory(#[from] AllocError),
    #[error("pair: cannot read {0}: {1}")]
    Unreadable(String, io::Error),
    #[error("pair: {0}")]
    Io(#[from] io::Error),
}

// Written out, as a failure is one of two stops.
impl From<Failure> for Stop {
    fn from(e: Failure) -> Stop {
        match e {
            Failure::Refused(refusal) => Stop::Refused(refusal),
            Failure::Memory => Stop::Memory(AllocError),
        }
    }
}

// No file that fits is longer, and one that is longer is refused whatever its rest has.
const MOST_BYTES: u64 = 1_048_576;

// The start of a file, which need not end.
fn start_of(rt: &HostRuntime, path: &str) -> io::Result<Vec<u8>> {
    let file = File::open(rt, path)?;
    let mut bytes = Vec::new(rt.alloc());
    file.take(MOST_BYTES).read_to_end(&mut bytes)?;
    Ok(bytes)
}

fn file(rt: &HostRuntime, path: &str) -> Result<Vec<u8>, Stop> {
    match start_of(rt, path) {
        Ok(bytes) => Ok(bytes),
        Err(e) => Err(Stop::Unreadable(String::from_str(rt.alloc(), path)?, e)),
    }
}

// The values in a file.
fn values(rt: &HostRuntime, path: &str, count: usize) -> Result<Vec<bool>, Stop> {
    let text = file(rt, path)?;
    Ok(bits::read_values(rt.alloc(), count, &text)?)
}

// Reads the files in their order, each to its end or its first fault, and prints the answer.
fn pair(rt: &HostRuntime, sheet: &str, first: &str, second: &str, coins: &str) -> Result<(), Stop> {
    let heap = rt.alloc();
    let text = file(rt, sheet)?;
    let sheet = Sheet::read(heap, &text)?;
    let inputs = usize::from(sheet.inputs);
    let first = values(rt, first, inputs)?;
    let second = values(rt, second, inputs)?;
    let text = file(rt, coins)?;
    let coins = bits::read_line(heap, sheet.wire_count(), &text)?;
    match scheme::pair(heap, &sheet, &first, &second, &coins)? {
        Pairing::Coins(paired) => rt.println(bits::line_of(heap, &paired)?)?,
        Pairing::Differ(output) => println!(rt; "output {output} differs")?,
    }
    Ok(())
}

fn run(rt: &HostRuntime) -> Result<(), Stop> {
    let args: Vec<String> = env::args(rt)?.collect(rt.alloc())?;
    match args.as_slice() {
        [_, help] if help.as_str() == "--help" => Ok(rt.println(HELP)?),
        [_, sheet, first, second, coins] => pair(rt, sheet, first, second, coins),
        _ => Err(Stop::Usage),
    }
}

fn main(rt: HostRuntime) -> ExitCode {
    match run(&rt) {
        Ok(()) => ExitCode::SUCCESS,
        Err(stop) => {
            let _ = eprintln!(rt; "{stop}");
            ExitCode::FAILURE
        }
    }
}
