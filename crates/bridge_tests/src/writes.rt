// What a card write stores, and where it ends.
use crate::setup::{Logged, MAPPED, MEGABYTE, PLAIN, Trial, counts, flat, marked, play};
use bridge::bursts::{BurstRefusal, WriteEnd};
use bridge::log::Direction;
use std::test::Fail;

#[test]
fn enables_pick_bytes(rt: HostRuntime) -> Result<(), Fail> {
    let mut b = flat(rt.alloc(), 512, PLAIN)?;
    play(
        &mut b,
        &[
            Trial::Fill(0, 0xee),
            Trial::WriteAnswers(
                0x4000_0008,
                &[0x4433_2211, 0x8877_6655],
                &[5, 8],
                Ok(counts(2, 1, 0)),
            ),
            Trial::Reads(
                0x4000_0004,
                &[0xeeee_eeee, 0xee33_ee11, 0x88ee_eeee, 0xeeee_eeee],
            ),
        ],
    )
}

#[test]
fn a_write_goes_on_over_three_lines(rt: HostRuntime) -> Result<(), Fail> {
    let mut b = flat(rt.alloc(), 512, PLAIN)?;
    let words = [1, 2, 3, 4, 5, 6, 7, 8, 9, 10];
    play(
        &mut b,
        &[
            Trial::WriteAnswers(0x4000_001c, &words, &[15; 10], Ok(counts(10, 3, 0))),
            Trial::Reads(0x4000_0018, &[0, 1, 2, 3, 4, 5, 6, 7, 8, 9, 10, 0]),
        ],
    )
}

// The memory has lines 0 to 2.
#[test]
fn a_line_with_no_byte_enabled_is_stored_or_dismissed(rt: HostRuntime) -> Result<(), Fail> {
    let mut b = marked(rt.alloc(), 96, PLAIN)?;
    b.mark(1)?;
    play(
        &mut b,
        &[
            Trial::WriteAnswers(0x4000_0000, &[7], &[0], Ok(counts(1, 1, 0))),
            Trial::Holds(0, 0),
            Trial::WriteAnswers(0x4000_0020, &[7], &[0], Ok(counts(1, 1, 0))),
            Trial::Spoiled(1),
            Trial::NoFault,
            Trial::WriteAnswers(0x4000_0060, &[7], &[0], Ok(counts(1, 0, 1))),
            Trial::Logs(Logged {
                number: 8,
                direction: Direction::Write,
                pci: 0x4000_0060,
                line: 3,
                missed: false,
            }),
        ],
    )
}

#[test]
fn a_write_of_a_whole_line_alone_mends_it(rt: HostRuntime) -> Result<(), Fail> {
    let mut b = marked(rt.alloc(), 512, PLAIN)?;
    b.mark(1)?;
    play(
        &mut b,
        &[
            Trial::WriteAnswers(
                0x4000_0020,
                &[7; 8],
                &[15, 15, 15, 7, 15, 15, 15, 15],
                Ok(counts(8, 1, 0)),
            ),
            Trial::Spoiled(1),
            Trial::WriteAnswers(0x4000_0024, &[7; 8], &[15; 8], Ok(counts(8, 2, 0))),
            Trial::Spoiled(1),
            Trial::NoFault,
            Trial::WriteAnswers(0x4000_001c, &[9; 9], &[15; 9], Ok(counts(9, 2, 0))),
            Trial::Reads(0x4000_0020, &[9, 9, 9, 9, 9, 9, 9, 9, 7]),
        ],
    )
}

// The memory ends one line before the end of page 3.
#[test]
fn a_faulty_line_between_good_ones_is_dismissed_alone(rt: HostRuntime) -> Result<(), Fail> {
    let mut b = flat(rt.alloc(), 0x7fe0, MAPPED)?;
    play(
        &mut b,
        &[
            Trial::Table(0x2000, [7, 5, 0, 0]),
            Trial::WriteAnswers(0x4000_1fc4, &[6; 20], &[15; 20], Ok(counts(20, 2, 1))),
            Trial::Holds(0x7fc4, 6),
            Trial::Holds(0x7fdc, 6),
            Trial::Holds(0x4000, 6),
            Trial::Holds(0x4010, 6),
            Trial::Holds(0x4014, 0),
            Trial::Logs(Logged {
                number: 8,
                direction: Direction::Write,
                pci: 0x4000_1fe0,
                line: 0x3ff,
                missed: false,
            }),
        ],
    )
}

#[test]
fn a_write_ends_where_its_window_ends(rt: HostRuntime) -> Result<(), Fail> {
    let mut b = flat(rt.alloc(), 0x10_0000, MEGABYTE)?;
    let end = WriteEnd {
        counts: counts(10, 2, 0),
    };
    play(
        &mut b,
        &[
            Trial::WriteAnswers(
                0x400f_ffd8,
                &[6; 12],
                &[15; 12],
                Err(BurstRefusal::Ended(end)),
            ),
            Trial::Holds(0xf_ffd8, 6),
            Trial::Holds(0xf_fffc, 6),
            Trial::NoFault,
        ],
    )
}

// The last entry of the table is not valid.
#[test]
fn a_write_ends_at_a_window_behind_a_line_dismissed(rt: HostRuntime) -> Result<(), Fail> {
    let mut b = flat(rt.alloc(), 0x4000, MAPPED)?;
    let end = WriteEnd {
        counts: counts(2, 0, 1),
    };
    play(
        &mut b,
        &[
            Trial::WriteAnswers(
                0x400f_fff8,
                &[6; 12],
                &[15; 12],
                Err(BurstRefusal::Ended(end)),
            ),
            Trial::Logs(Logged {
                number: 5,
                direction: Direction::Write,
                pci: 0x400f_fff8,
                line: 0x11f,
                missed: false,
            }),
        ],
    )
}
