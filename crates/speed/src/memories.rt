// The three kinds of memory, each of 64 pages. Bursts reach the first 56 of them; the marked lines lie behind these, and the
// table of the mapped window in the last page.
use crate::errors::SpeedError;
use memory::bank_list::BankList;
use memory::banked::Banked;
use memory::banks::Bank;
use memory::flat::Flat;
use memory::marks::Marks;
use std::alloc::Global;
use std::fmt;

// The bytes of a memory.
pub(crate) const BYTES: usize = 0x8_0000;

// Bursts reach the pages below this one.
pub(crate) const PAGES: u64 = 56;

// The bytes of a bank.
const BANK: u64 = 0x1_0000;

// Which of the three.
#[derive(Clone, Copy)]
pub enum MemoryKind {
    Flat,
    Banked,
    Marked,
}

impl fmt::Display for MemoryKind {
    fn fmt<W: fmt::Write>(&self, f: &mut fmt::Formatter<W>) -> fmt::Result {
        f.write_str(match self {
            MemoryKind::Flat => "flat",
            MemoryKind::Banked => "banked",
            MemoryKind::Marked => "marked",
        })
    }
}

// All bytes in one run.
pub(crate) fn flat(heap: Global) -> Result<Flat, SpeedError> {
    Ok(Flat::zeros(heap, BYTES)?)
}

// Eight banks, the highest first.
pub(crate) fn banked(heap: Global) -> Result<Banked, SpeedError> {
    let banks = [7, 6, 5, 4, 3, 2, 1, 0].map(|i: u8| Bank {
        base: u64::from(i) * BANK,
        size: BANK,
    });
    let list = BankList::new(&banks, BYTES)?;
    Ok(Banked::zeros(heap, list)?)
}

// A flat memory with 32 marked lines.
pub(crate) fn marked(heap: Global) -> Result<Marks<Flat>, SpeedError> {
    let mut marks = Marks::new(heap, flat(heap)?)?;
    for i in 0..32 {
        marks.mark(PAGES * 256 + 7 * i)?;
    }
    Ok(marks)
}
