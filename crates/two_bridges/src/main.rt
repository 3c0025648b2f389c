// One list of calls on two bridges whose memories differ in hidden pages: the cards are told the same by both.
#![tactic(auto)]

mod account;
mod calls;
mod draws;
mod hidden;
mod memories;
mod pair;
mod places;
mod runs;

use anyhow::Result;
use memories::{COMMON_MARKS, READ_LINE};
use runs::{run_same, run_with_slip};

fn main(rt: HostRuntime) -> Result<()> {
    let heap = rt.alloc();
    println!(rt; "A flat memory, and banks under marks.")?;
    let flat = memories::flat(heap)?;
    let banks = memories::banks_under_marks(heap, &[])?;
    run_same(&rt, flat, banks)?;
    println!(rt;
        "The same calls, both memories under marks, lines outside hidden pages spoiled in both."
    )?;
    let flat = memories::flat_under_marks(heap, &COMMON_MARKS)?;
    let banks = memories::banks_under_marks(heap, &COMMON_MARKS)?;
    run_same(&rt, flat, banks)?;
    println!(rt; "The same calls, an entry of the table naming a hidden page.")?;
    run_with_slip(&rt, &[])?;
    println!(rt; "The same, a line that a card then reads spoiled in the banks.")?;
    run_with_slip(&rt, &[READ_LINE])?;
    println!(rt; "All was the same where the premise holds.")?;
    Ok(())
}
