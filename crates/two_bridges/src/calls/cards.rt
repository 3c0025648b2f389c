// What cards ask.
use super::CallList;
use crate::draws::Draws;
use bridge::calls::{Burst, Call};
use seeded::Random;
use std::alloc::{AllocError, Global};

// Places in a page: its first line, the end of a line, and its last two lines.
const PAGE_PLACES: [u32; 5] = [0, 0x1c, 0x1fc0, 0x1fe0, 0x1ffc];

// What the buffer of a read holds before it.
const UNTOUCHED: u32 = 0x7777_7777;

// A place in a page, mostly at a multiple of 4.
fn place(random: &mut Random) -> u32 {
    match random.below(20) {
        0 => random.longword() % 0x2000,
        1..=9 => random.pick(&PAGE_PLACES),
        _ => random.longword() % 0x800 * 4,
    }
}

// A page of a megabyte: one of those whose entries the driver stores, or of two more, which are never mapped.
fn page(random: &mut Random) -> u32 {
    if random.once_in(8) {
        127
    } else {
        random.below(14) as u32
    }
}

// Mostly one of two megabytes that windows hold; else the one behind them, which none holds, or the last one.
fn megabyte(random: &mut Random) -> u32 {
    match random.below(16) {
        0 => 0x4020_0000,
        1 => 0xfff0_0000,
        2..=8 => 0x4010_0000,
        _ => 0x4000_0000,
    }
}

fn pci_address(random: &mut Random) -> u32 {
    megabyte(random) | page(random) << 13 | place(random)
}

// A count of longwords, which may be one that is refused.
fn count(random: &mut Random) -> usize {
    match random.below(40) {
        0 => 0,
        1 => 65,
        2 => 64,
        3..=19 => 1 + random.below(8) as usize,
        _ => 1 + random.below(64) as usize,
    }
}

// How many longwords a card has for a burst of a count: seldom one fewer.
fn longwords(random: &mut Random, count: usize) -> usize {
    if random.once_in(40) {
        count.saturating_sub(1)
    } else {
        count
    }
}

// Longwords to write.
fn words(heap: Global, random: &mut Random, n: usize) -> Result<Vec<u32>, AllocError> {
    let mut words = Vec::new(heap);
    for _ in 0..n {
        words.push(random.longword())?;
    }
    Ok(words)
}

// All bytes of a longword, or some of them; seldom more bits than a longword has bytes.
fn enable(random: &mut Random) -> u8 {
    match random.below(400) {
        0 => 16,
        1..=99 => random.byte() % 16,
        _ => 15,
    }
}

fn enables(heap: Global, random: &mut Random, n: usize) -> Result<Vec<u8>, AllocError> {
    let mut enables = Vec::new(heap);
    for _ in 0..n {
        enables.push(enable(random))?;
    }
    Ok(enables)
}

impl CallList {
    pub(super) fn card_read(&mut self, heap: Global) -> Result<(), AllocError> {
        let pci = pci_address(&mut self.random);
        let count = count(&mut self.random);
        let buffer = vec![in heap; UNTOUCHED; longwords(&mut self.random, count)]?;
        self.add(Call::Card(Burst::CardRead { pci, count, buffer }))
    }

    pub(super) fn card_write(&mut self, heap: Global) -> Result<(), AllocError> {
        let pci = pci_address(&mut self.random);
        let count = count(&mut self.random);
        let n = longwords(&mut self.random, count);
        let words = words(heap, &mut self.random, n)?;
        let enables = enables(heap, &mut self.random, n)?;
        self.add(Call::Card(Burst::CardWrite {
            pci,
            count,
            words,
            enables,
        }))
    }
}
