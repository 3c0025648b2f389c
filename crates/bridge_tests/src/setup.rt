// What the tests share: windows, bridges, and calls that are checked against the expected answer.
use bridge::Bridge;
use bridge::bursts::{BurstRefusal, ReadEnd, ReadRefusal, WriteCounts, WriteRefusal};
use bridge::faults::BurstFault;
use bridge::log::Direction;
use bridge::processor::AccessRefusal;
use memory::bank_list::BankList;
use memory::banked::Banked;
use memory::banks::Bank;
use memory::flat::Flat;
use memory::marks::Marks;
use memory::{Memory, MemoryFault};
use shifted_memory::Shifted;
use std::alloc::Global;
use std::fmt::Display;
use std::test::Fail;

// Fails where something does not hold, and says what.
fn check<D: Display + Drop>(holds: bool, what: D) -> Result<(), Fail> {
    if holds { Ok(()) } else { Err(Fail::new(what)) }
}

// A window as its three registers are written.
#[derive(Clone, Copy)]
pub struct Window {
    pub translated: u32,
    pub base: u32,
    pub mask: u32,
}

// Not enabled.
pub const NONE: Window = Window {
    translated: 0,
    base: 0,
    mask: 0,
};

// PCI 4000_0000h to 7FFF_FFFFh, plain, to address 0 and up.
pub const PLAIN: Window = Window {
    translated: 0,
    base: 0x4008_0000,
    mask: 0x3ff0_0000,
};

// PCI 4000_0000h to 400F_FFFFh, plain, to address 0 and up.
pub const MEGABYTE: Window = Window {
    translated: 0,
    base: 0x4008_0000,
    mask: 0,
};

// PCI 4000_0000h to 400F_FFFFh, mapped by a table of 128 entries at 2000h.
pub const MAPPED: Window = Window {
    translated: 0x1000,
    base: 0x400c_0000,
    mask: 0,
};

// A bridge over a memory, with its two windows.
fn bridge_over<M: Memory + Drop>(
    memory: M,
    first: Window,
    second: Window,
) -> Result<Bridge<M>, Fail> {
    let mut bridge = Bridge::new(memory);
    bridge.register_write(6, first.translated)?;
    bridge.register_write(8, first.base)?;
    bridge.register_write(10, first.mask)?;
    bridge.register_write(7, second.translated)?;
    bridge.register_write(9, second.base)?;
    bridge.register_write(11, second.mask)?;
    Ok(bridge)
}

// A bridge with one window over a flat memory of n bytes.
pub(crate) fn flat(heap: Global, n: usize, window: Window) -> Result<Bridge<Flat>, Fail> {
    bridge_over(Flat::zeros(heap, n)?, window, NONE)
}

// A bridge with one window over a flat memory of n bytes under marks.
pub(crate) fn marked(heap: Global, n: usize, window: Window) -> Result<Bridge<Marks<Flat>>, Fail> {
    bridge_over(Marks::new(heap, Flat::zeros(heap, n)?)?, window, NONE)
}

// A bridge with one window over a flat memory of n bytes whose lines begin at line `first`.
pub(crate) fn shifted(
    heap: Global,
    n: usize,
    first: u64,
    window: Window,
) -> Result<Bridge<Shifted<Flat>>, Fail> {
    bridge_over(Shifted::new(Flat::zeros(heap, n)?, first), window, NONE)
}

// A bridge over two banks of a page each.
pub(crate) fn banked(
    heap: Global,
    bases: [u64; 2],
    first: Window,
    second: Window,
) -> Result<Bridge<Banked>, Fail> {
    let size = 0x2000;
    let banks = bases.map(|base| Bank { base, size });
    let list = BankList::new(&banks, 0x4000)?;
    bridge_over(Banked::zeros(heap, list)?, first, second)
}

// What a filled log says.
#[derive(Clone, Copy, Debug, PartialEq)]
pub struct Logged {
    pub number: u8,
    pub direction: Direction,
    pub pci: u32,
    pub line: u64,
    pub missed: bool,
}

fn log_of<M: Memory>(bridge: &Bridge<M>) -> Option<Logged> {
    let reading = bridge.log_read()?;
    Some(Logged {
        number: reading.first.fault.number(),
        direction: reading.first.direction,
        pci: reading.first.pci,
        line: reading.first.fault.line(),
        missed: reading.missed,
    })
}

// The log is filled, and says this.
pub(crate) fn logs<M: Memory>(b: &Bridge<M>, expected: Logged) -> Result<(), Fail> {
    check(log_of(b) == Some(expected), "the log")
}

// The log is empty.
pub(crate) fn no_fault<M: Memory>(b: &Bridge<M>) -> Result<(), Fail> {
    check(log_of(b).is_none(), "the log is not empty")
}

// A register reads this value.
pub(crate) fn register<M: Memory>(b: &Bridge<M>, n: u64, value: u32) -> Result<(), Fail> {
    let read = b.register_read(n)?;
    check(read == value, format_args!("register {n}"))
}

// Stores the same byte all over a line.
pub(crate) fn fill<M: Memory>(b: &mut Bridge<M>, address: u64, byte: u8) -> Result<(), Fail> {
    Ok(b.store(address, &[byte; 32])?)
}

// Stores a line of a table, by the low bytes of its four entries.
pub(crate) fn table<M: Memory>(
    b: &mut Bridge<M>,
    address: u64,
    entries: [u8; 4],
) -> Result<(), Fail> {
    let mut line = [0; 32];
    line[0] = entries[0];
    line[8] = entries[1];
    line[16] = entries[2];
    line[24] = entries[3];
    Ok(b.store(address, &line)?)
}

// What every place of a buffer holds before a read.
const UNTOUCHED: u32 = 0x7777_7777;

// A card read of `count` longwords answers so and fills the first places of its buffer so; all others stay.
pub(crate) fn read_answers<M: Memory>(
    b: &mut Bridge<M>,
    pci: u32,
    count: usize,
    answer: Result<(), ReadRefusal>,
    moved: &[u32],
) -> Result<(), Fail> {
    let mut buffer = [UNTOUCHED; 65];
    let n = moved.len();
    if n > 65 {
        return Err(Fail::new("too many longwords"));
    }
    let got = b.card_read(pci, count, &mut buffer);
    check(got == answer, format_args!("read at {pci:x}"))?;
    check(buffer[..n] == moved[..], format_args!("moved from {pci:x}"))?;
    check(
        buffer[n..].iter().all(|word| *word == UNTOUCHED),
        format_args!("past the moved ones from {pci:x}"),
    )
}

// A card read is served whole.
pub(crate) fn reads<M: Memory>(b: &mut Bridge<M>, pci: u32, moved: &[u32]) -> Result<(), Fail> {
    read_answers(b, pci, moved.len(), Ok(()), moved)
}

// The end of a read by a fault.
pub(crate) fn ended(moved: usize, pci: u32, fault: BurstFault) -> Result<(), ReadRefusal> {
    Err(BurstRefusal::Ended(ReadEnd::Fault { moved, pci, fault }))
}

// The end of a read at an absent target.
pub(crate) fn absent(moved: usize, pci: u32, line: u64) -> Result<(), ReadRefusal> {
    ended(moved, pci, BurstFault::Target(MemoryFault::Absent(line)))
}

// A card write of all the longwords answers so.
pub(crate) fn write_answers<M: Memory>(
    b: &mut Bridge<M>,
    pci: u32,
    words: &[u32],
    enables: &[u8],
    answer: Result<WriteCounts, WriteRefusal>,
) -> Result<(), Fail> {
    let got = b.card_write(pci, words.len(), words, enables);
    check(got == answer, format_args!("write at {pci:x}"))
}

// What a write answers: longwords taken, lines stored, lines dismissed.
pub(crate) fn counts(taken: usize, stored: usize, dismissed: usize) -> WriteCounts {
    WriteCounts {
        taken,
        stored,
        dismissed,
    }
}

// The line at an address is good, with this byte at a place of it.
pub(crate) fn holds<M: Memory>(b: &Bridge<M>, address: u64, byte: u8) -> Result<(), Fail> {
    let line = b.load(address / 32 * 32)?;
    check(
        line[(address % 32) as usize] == byte,
        format_args!("at {address:x}"),
    )
}

// A load finds the line spoiled.
pub(crate) fn spoiled<M: Memory>(b: &Bridge<M>, line: u64) -> Result<(), Fail> {
    if line >= 0xc00_0000 {
        return Err(Fail::new("no such line"));
    }
    let refusal = AccessRefusal::Memory(MemoryFault::Spoiled(line));
    check(
        b.load(line * 32).err() == Some(refusal),
        format_args!("line {line:x}"),
    )
}

// A call on a bridge with the answer that it should have, or what the bridge should hold.
#[derive(Clone, Copy)]
pub enum Trial<'a> {
    // A line of one byte, and a line of a table, stored by the processor.
    Fill(u64, u8),
    Table(u64, [u8; 4]),
    SetRegister(u64, u32),
    ClearLog,
    // PCI address and longwords of a read that is served whole; with count and answer of any read.
    Reads(u32, &'a [u32]),
    ReadAnswers(u32, usize, Result<(), ReadRefusal>, &'a [u32]),
    // PCI address, longwords, enables and answer of a write.
    WriteAnswers(u32, &'a [u32], &'a [u8], Result<WriteCounts, WriteRefusal>),
    // A byte at an address, a spoiled line, a register's value, a filled and an empty log.
    Holds(u64, u8),
    Spoiled(u64),
    Register(u64, u32),
    Logs(Logged),
    NoFault,
}

fn try_one<M: Memory>(b: &mut Bridge<M>, trial: &Trial) -> Result<(), Fail> {
    match trial {
        Trial::Fill(address, byte) => fill(b, *address, *byte),
        Trial::Table(address, entries) => table(b, *address, *entries),
        Trial::SetRegister(n, value) => Ok(b.register_write(*n, *value)?),
        Trial::ClearLog => {
            b.log_clear();
            Ok(())
        }
        Trial::Reads(pci, moved) => reads(b, *pci, *moved),
        Trial::ReadAnswers(pci, count, answer, moved) => {
            read_answers(b, *pci, *count, *answer, *moved)
        }
        Trial::WriteAnswers(pci, words, enables, answer) => {
            write_answers(b, *pci, *words, *enables, *answer)
        }
        Trial::Holds(address, byte) => holds(b, *address, *byte),
        Trial::Spoiled(line) => spoiled(b, *line),
        Trial::Register(n, value) => register(b, *n, *value),
        Trial::Logs(expected) => logs(b, *expected),
        Trial::NoFault => no_fault(b),
    }
}

// Tries one after the other, up to the first that fails.
pub(crate) fn play<M: Memory>(b: &mut Bridge<M>, trials: &[Trial]) -> Result<(), Fail> {
    for trial in trials {
        try_one(b, trial)?;
    }
    Ok(())
}
