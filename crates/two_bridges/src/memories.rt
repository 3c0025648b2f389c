// The two memories: the same lines are there, and they hold the same outside hidden pages.
use crate::places::{BANKS, PAGE_BYTES, PAGE_LINES, PAGES, Side, TABLE_PAGE, is_hidden_line};
use anyhow::{Result, anyhow};
use memory::Memory;
use memory::bank_list::BankList;
use memory::banked::Banked;
use memory::flat::Flat;
use memory::marks::Marks;
use seeded::Random;
use std::alloc::Global;

// Lines of hidden pages that are marked on the right alone. The last two digits of a line are its place in the page.
const HIDDEN_MARKS: [u64; 8] = [0x300, 0x311, 0x3ff, 0x500, 0x4000, 0x40ff, 0x7f00, 0x7fff];

// A line of the first hidden page, which a card reads where the premise is broken.
pub const READ_LINE: u64 = 0x352;

// Lines outside hidden pages that may be marked on both sides: one of the table, and some that cards reach.
pub const COMMON_MARKS: [u64; 12] = [
    0x203, 0x400, 0x401, 0x4ff, 0x600, 0x3f00, 0x3fff, 0x4100, 0x8000, 0x8001, 0x80ff, 0x8700,
];

const BYTES: usize = (PAGES * PAGE_BYTES) as usize;

// What is written into a line at first. The table has no valid entry.
fn first_bytes(side: Side, line: u64) -> [u8; 32] {
    if line / PAGE_LINES == TABLE_PAGE {
        return [0; 32];
    }
    let bytes = Random::new(!line).line();
    if is_hidden_line(line) {
        side.hidden_bytes(bytes)
    } else {
        bytes
    }
}

// What a hidden line holds at first, or none where it is spoiled.
pub(crate) fn first_content(side: Side, line: u64) -> Option<[u8; 32]> {
    let marked = side == Side::Right && HIDDEN_MARKS.contains(&line);
    (!marked).then(|| first_bytes(side, line))
}

fn fill<M: Memory>(memory: &mut M, side: Side) -> Result<()> {
    for line in 0..PAGES * PAGE_LINES {
        memory
            .write(line, &first_bytes(side, line), u32::MAX)
            .map_err(|fault| anyhow!("filling a line: {fault:?}"))?;
    }
    Ok(())
}

// Marks some lines, which spoils them.
fn mark_all<M: Memory>(memory: &mut Marks<M>, lines: &[u64]) -> Result<()> {
    for line in lines {
        memory
            .mark(*line)
            .map_err(|refusal| anyhow!("marking line {line:x}: {refusal:?}"))?;
    }
    Ok(())
}

// The left memory: flat, and never spoiled.
pub(crate) fn flat(heap: Global) -> Result<Flat> {
    let mut memory = Flat::zeros(heap, BYTES)?;
    fill(&mut memory, Side::Left)?;
    Ok(memory)
}

// The left memory under marks of its own.
pub(crate) fn flat_under_marks(heap: Global, marks: &[u64]) -> Result<Marks<Flat>> {
    let mut memory = Marks::new(heap, flat(heap)?)?;
    mark_all(&mut memory, marks)?;
    Ok(memory)
}

// The right memory: banks under marks, of hidden lines and of others.
pub(crate) fn banks_under_marks(heap: Global, marks: &[u64]) -> Result<Marks<Banked>> {
    let list = BankList::new(&BANKS, BYTES).map_err(|refusal| anyhow!("{refusal:?}"))?;
    let mut memory = Marks::new(heap, Banked::zeros(heap, list)?)?;
    fill(&mut memory, Side::Right)?;
    mark_all(&mut memory, &HIDDEN_MARKS)?;
    mark_all(&mut memory, marks)?;
    Ok(memory)
}
