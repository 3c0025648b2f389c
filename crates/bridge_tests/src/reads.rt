// What a card read moves, and where it ends.
use crate::setup::{MAPPED, MEGABYTE, PLAIN, Trial, absent, flat, play, reads};
use bridge::bursts::{BurstRefusal, ReadEnd};
use std::test::Fail;

#[test]
fn a_read_joins_bytes_low_end_first_from_inside_a_line(rt: HostRuntime) -> Result<(), Fail> {
    let mut b = flat(rt.alloc(), 512, PLAIN)?;
    let mut bytes = [0; 32];
    bytes[20] = 0x14;
    bytes[21] = 0x25;
    bytes[23] = 0x47;
    bytes[31] = 0x9f;
    b.store(0x40, &bytes)?;
    reads(&mut b, 0x4000_0054, &[0x4700_2514, 0, 0x9f00_0000])
}

#[test]
fn a_read_goes_on_over_three_lines(rt: HostRuntime) -> Result<(), Fail> {
    let mut b = flat(rt.alloc(), 512, PLAIN)?;
    play(
        &mut b,
        &[
            Trial::Fill(0, 1),
            Trial::Fill(0x20, 2),
            Trial::Fill(0x40, 3),
        ],
    )?;
    let mut moved = [0x0202_0202; 10];
    moved[0] = 0x0101_0101;
    moved[9] = 0x0303_0303;
    reads(&mut b, 0x4000_001c, &moved)
}

#[test]
fn a_read_ends_where_its_window_ends(rt: HostRuntime) -> Result<(), Fail> {
    let mut b = flat(rt.alloc(), 0x10_0000, MEGABYTE)?;
    let end = ReadEnd::NoWindow { moved: 2 };
    play(
        &mut b,
        &[
            Trial::Fill(0xf_ffe0, 9),
            Trial::ReadAnswers(
                0x400f_fff8,
                4,
                Err(BurstRefusal::Ended(end)),
                &[0x0909_0909; 2],
            ),
            Trial::NoFault,
        ],
    )
}

// The memory ends one line before the end of page 3.
#[test]
fn a_read_ends_at_its_first_fault(rt: HostRuntime) -> Result<(), Fail> {
    let mut b = flat(rt.alloc(), 0x7fe0, MAPPED)?;
    play(
        &mut b,
        &[
            Trial::Table(0x2000, [7, 5, 0, 0]),
            Trial::Fill(0x7fc0, 1),
            Trial::ReadAnswers(
                0x4000_1fc4,
                23,
                absent(7, 0x4000_1fe0, 0x3ff),
                &[0x0101_0101; 7],
            ),
        ],
    )
}
