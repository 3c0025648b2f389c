// A fixed, seeded load of card bursts: plain and mapped windows, reads and writes of 1, 8 and 64 longwords, over a flat memory,
// over eight banks, and under 32 marks. Each row prints a checksum of all that it read, was answered and left in the memory;
// `speed time ROUNDS` also prints the picoseconds of a burst, and `speed time ROUNDS ROW` runs one row alone.
#![tactic(auto)]

mod checksum;
mod errors;
mod load;
mod memories;
mod rows;

use checksum::Checksum;
use errors::SpeedError;
use load::{Outcome, run_row};
use memories::MemoryKind;
use rows::{ROWS, Row};
use std::alloc::Global;
use std::env;
use std::rt::{Clock, Env};

// The rounds of each row where none are asked for.
const ROUNDS: usize = 4;

// What the arguments ask for.
#[derive(Clone, Copy)]
struct Wanted {
    timed: bool,
    rounds: usize,
    only: Option<usize>,
}

fn asked<R: Env + Alloc>(rt: &R) -> Result<Wanted, SpeedError> {
    let mut words = env::args(rt)?.skip(1);
    let timed = words.next().is_some_and(|word| word.as_str() == "time");
    let rounds = words.next().and_then(|word| word.parse::<usize>().ok());
    let only = words.next().and_then(|word| word.parse::<usize>().ok());
    Ok(Wanted {
        timed,
        rounds: rounds.unwrap_or(ROUNDS),
        only,
    })
}

// Runs a row over the memory of its kind.
fn outcome<R: Clock>(rt: &R, heap: Global, row: Row, rounds: usize) -> Result<Outcome, SpeedError> {
    match row.memory {
        MemoryKind::Flat => run_row(rt, heap, memories::flat(heap)?, row, rounds),
        MemoryKind::Banked => run_row(rt, heap, memories::banked(heap)?, row, rounds),
        MemoryKind::Marked => run_row(rt, heap, memories::marked(heap)?, row, rounds),
    }
}

fn main(rt: HostRuntime) -> Result<(), SpeedError> {
    let wanted = asked(&rt)?;
    let mut total = Checksum::new();
    for i in 0..ROWS {
        if wanted.only.is_some_and(|only| only != i) {
            continue;
        }
        let row = Row::nth(i);
        let outcome = outcome(&rt, rt.alloc(), row, wanted.rounds)?;
        total.add(outcome.checksum);
        if wanted.timed {
            println!(rt; "{row} {:016x} {}", outcome.checksum, outcome.picoseconds)?;
        } else {
            println!(rt; "{row} {:016x}", outcome.checksum)?;
        }
    }
    println!(rt; "total {:016x}", total.value())?;
    Ok(())
}
