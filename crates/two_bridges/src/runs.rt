// The list of calls on two bridges: one whose premise holds, and one where it is broken.
use crate::account::Account;
use crate::calls::call_list;
use crate::hidden::{hidden_lines, take_stores, wrong_line};
use crate::memories;
use crate::pair::Pair;
use crate::places::{HIDDEN, SPARE_TABLE_LINE, Side, TABLE_PAGE, line_address};
use anyhow::{Result, anyhow, bail};
use bridge::Bridge;
use bridge::calls::{Call, Request, Step};
use memory::Memory;
use std::alloc::{AllocError, Global};

// Fails where a hidden line does not hold what the stores alone make of it.
fn check_hidden<M: Memory>(
    heap: Global,
    bridge: &Bridge<M>,
    side: Side,
    steps: &[Step],
) -> Result<usize> {
    let mut lines = hidden_lines(heap, side)?;
    take_stores(&mut lines, steps);
    if let Some(address) = wrong_line(&lines, bridge) {
        bail!("not the same: the hidden line at {address:x} is not what the stores made of it");
    }
    Ok(lines.len())
}

// Runs the list on two bridges, prints what was done, and fails where anything differs.
pub(crate) fn run_same<L: Memory + Drop, R: Memory + Drop>(
    rt: &(impl Print + AllocGlobal),
    left: L,
    right: R,
) -> Result<()> {
    let heap = rt.alloc();
    let mut pair = Pair::new(left, right);
    let mut lefts = call_list(heap, Side::Left)?;
    let mut rights = call_list(heap, Side::Right)?;
    pair.run(&mut lefts, &mut rights)
        .map_err(|difference| anyhow!("not the same: {difference}"))?;
    let lines = check_hidden(heap, &pair.left, Side::Left, &lefts)?;
    check_hidden(heap, &pair.right, Side::Right, &rights)?;
    let account = Account {
        left: &lefts,
        right: &rights,
    };
    print!(rt; "{account}")?;
    println!(rt; "every burst had the same answer and the same buffer from both")?;
    println!(rt; "after every call registers, rows and log were the same in both")?;
    println!(rt; "hidden lines that hold in each memory what the stores put there: {lines}")?;
    Ok(())
}

// The store that breaks the premise: an entry that the list itself never stores names a hidden page.
fn slip() -> Step {
    let mut bytes = [0; 32];
    bytes[..8].copy_from_slice(&(HIDDEN[0] << 1 | 1).to_le_bytes());
    let address = line_address(TABLE_PAGE, SPARE_TABLE_LINE);
    Step {
        call: Call::Processor(Request::Store { address, bytes }),
        answer: None,
    }
}

fn with_slip(heap: Global, side: Side) -> Result<Vec<Step>, AllocError> {
    let mut steps = call_list(heap, side)?;
    steps.insert(0, slip())?;
    Ok(steps)
}

// Runs the list behind that store, lines of the banks besides marked, and prints the first difference, which a card must see.
pub(crate) fn run_with_slip(rt: &(impl Print + AllocGlobal), marks: &[u64]) -> Result<()> {
    let heap = rt.alloc();
    let mut pair = Pair::new(
        memories::flat(heap)?,
        memories::banks_under_marks(heap, marks)?,
    );
    let mut lefts = with_slip(heap, Side::Left)?;
    let mut rights = with_slip(heap, Side::Right)?;
    match pair.run(&mut lefts, &mut rights) {
        Err(difference) if difference.is_told_to_cards() => {
            println!(rt; "{difference}")?;
            Ok(())
        }
        Err(difference) => bail!("{difference}, before a card is told anything else"),
        Ok(()) => bail!("nothing differs where the premise is broken"),
    }
}
