// Faults of the walk and of the target, and the log.
use crate::setup::{
    Logged, MAPPED, PLAIN, Trial, absent, counts, ended, flat, marked, play, table,
};
use bridge::bursts::{BurstRefusal, ReadEnd, ReadRefusal, WriteEnd, WriteRefusal};
use bridge::faults::{BurstFault, WalkFault};
use bridge::log::Direction;
use memory::MemoryFault;
use memory::refusals::Refusal;
use std::test::Fail;

#[test]
fn an_entry_that_is_not_valid_fills_no_row(rt: HostRuntime) -> Result<(), Fail> {
    let mut b = flat(rt.alloc(), 0x8000, MAPPED)?;
    let fault = BurstFault::Walk(WalkFault::NotValid(0x100));
    play(
        &mut b,
        &[
            Trial::Table(0x2000, [6, 0, 0, 0]),
            Trial::ReadAnswers(0x4000_0004, 2, ended(0, 0x4000_0004, fault), &[]),
            Trial::Logs(Logged {
                number: 5,
                direction: Direction::Read,
                pci: 0x4000_0004,
                line: 0x100,
                missed: false,
            }),
            Trial::Register(16, 0),
            Trial::Register(24, 0),
            Trial::Table(0x2000, [7, 0, 0, 0]),
            Trial::Reads(0x4000_0004, &[0, 0]),
            Trial::Register(16, 0x4000_1000),
        ],
    )
}

// The memory ends behind the first line of the table.
#[test]
fn a_line_of_a_table_may_be_absent(rt: HostRuntime) -> Result<(), Fail> {
    let mut b = flat(rt.alloc(), 0x2020, MAPPED)?;
    let fault = BurstFault::Walk(WalkFault::Memory(MemoryFault::Absent(0x101)));
    play(
        &mut b,
        &[
            Trial::ReadAnswers(0x4000_8000, 1, ended(0, 0x4000_8000, fault), &[]),
            Trial::Logs(Logged {
                number: 6,
                direction: Direction::Read,
                pci: 0x4000_8000,
                line: 0x101,
                missed: false,
            }),
            Trial::Register(16, 0),
        ],
    )
}

#[test]
fn a_line_of_a_table_may_be_spoiled(rt: HostRuntime) -> Result<(), Fail> {
    let mut b = marked(rt.alloc(), 0x8000, MAPPED)?;
    table(&mut b, 0x2000, [7, 7, 7, 7])?;
    b.mark(0x100)?;
    let fault = BurstFault::Walk(WalkFault::Memory(MemoryFault::Spoiled(0x100)));
    play(
        &mut b,
        &[
            Trial::ReadAnswers(0x4000_2010, 1, ended(0, 0x4000_2010, fault), &[]),
            Trial::Logs(Logged {
                number: 7,
                direction: Direction::Read,
                pci: 0x4000_2010,
                line: 0x100,
                missed: false,
            }),
            Trial::Register(16, 0),
            Trial::WriteAnswers(0x4000_2010, &[5], &[15], Ok(counts(1, 0, 1))),
        ],
    )
}

// Page 8 lies behind the end of the memory.
#[test]
fn an_absent_target_has_its_row_filled(rt: HostRuntime) -> Result<(), Fail> {
    let mut b = flat(rt.alloc(), 0x8000, MAPPED)?;
    play(
        &mut b,
        &[
            Trial::Table(0x2000, [17, 0, 0, 0]),
            Trial::ReadAnswers(0x4000_0010, 2, absent(0, 0x4000_0010, 0x800), &[]),
            Trial::Logs(Logged {
                number: 8,
                direction: Direction::Read,
                pci: 0x4000_0010,
                line: 0x800,
                missed: false,
            }),
            Trial::Register(16, 0x4000_1000),
            Trial::Register(24, 16),
        ],
    )
}

#[test]
fn a_spoiled_target_of_a_read_has_its_row_filled(rt: HostRuntime) -> Result<(), Fail> {
    let mut b = marked(rt.alloc(), 0x8000, MAPPED)?;
    play(
        &mut b,
        &[Trial::Table(0x2000, [0, 7, 0, 0]), Trial::Fill(0x6000, 1)],
    )?;
    b.mark(0x301)?;
    let fault = BurstFault::Target(MemoryFault::Spoiled(0x301));
    play(
        &mut b,
        &[
            Trial::ReadAnswers(0x4000_201c, 2, ended(1, 0x4000_2020, fault), &[0x0101_0101]),
            Trial::Logs(Logged {
                number: 9,
                direction: Direction::Read,
                pci: 0x4000_2020,
                line: 0x301,
                missed: false,
            }),
            Trial::Register(16, 0x4000_3000),
            Trial::Register(24, 6),
        ],
    )
}

#[test]
fn the_log_keeps_the_first_fault_until_it_is_cleared(rt: HostRuntime) -> Result<(), Fail> {
    let mut b = flat(rt.alloc(), 64, PLAIN)?;
    play(
        &mut b,
        &[
            Trial::NoFault,
            Trial::WriteAnswers(0x4000_0044, &[5], &[15], Ok(counts(1, 0, 1))),
            Trial::Logs(Logged {
                number: 8,
                direction: Direction::Write,
                pci: 0x4000_0044,
                line: 2,
                missed: false,
            }),
            Trial::ReadAnswers(0x4000_0068, 1, absent(0, 0x4000_0068, 3), &[]),
            Trial::Logs(Logged {
                number: 8,
                direction: Direction::Write,
                pci: 0x4000_0044,
                line: 2,
                missed: true,
            }),
            Trial::ClearLog,
            Trial::NoFault,
            Trial::ReadAnswers(0x4000_0068, 1, absent(0, 0x4000_0068, 3), &[]),
            Trial::Logs(Logged {
                number: 8,
                direction: Direction::Read,
                pci: 0x4000_0068,
                line: 3,
                missed: false,
            }),
        ],
    )
}

// Both lines of one burst.
#[test]
fn a_write_that_dismisses_two_lines_is_missed_once(rt: HostRuntime) -> Result<(), Fail> {
    let mut b = flat(rt.alloc(), 64, PLAIN)?;
    play(
        &mut b,
        &[
            Trial::WriteAnswers(0x4000_003c, &[5; 10], &[15; 10], Ok(counts(10, 1, 2))),
            Trial::Logs(Logged {
                number: 8,
                direction: Direction::Write,
                pci: 0x4000_0040,
                line: 2,
                missed: true,
            }),
        ],
    )
}

#[test]
fn refusals_of_bursts_have_their_numbers(rt: HostRuntime) {
    let bounds: ReadRefusal = BurstRefusal::Bounds;
    let alignment: ReadRefusal = BurstRefusal::Alignment;
    let unclaimed: WriteRefusal = BurstRefusal::Unclaimed;
    let read: ReadRefusal = BurstRefusal::Ended(ReadEnd::NoWindow { moved: 1 });
    let write: WriteRefusal = BurstRefusal::Ended(WriteEnd {
        counts: counts(1, 1, 0),
    });
    assert_eq!(rt; bounds.number(), 1);
    assert_eq!(rt; alignment.number(), 2);
    assert_eq!(rt; unclaimed.number(), 3);
    assert_eq!(rt; read.number(), 4);
    assert_eq!(rt; write.number(), 4);
}
