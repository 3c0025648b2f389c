// Look-aside rows and the table behind them.
use crate::setup::{MAPPED, Trial, Window, counts, fill, flat, play, reads};
use std::test::Fail;

// PCI 4000_0000h to 400F_FFFFh, mapped by a table of 128 entries at 3C00h, whose last line ends page 1.
const TABLE_ENDS_PAGE_1: Window = Window {
    translated: 0x1e00,
    base: 0x400c_0000,
    mask: 0,
};

// PCI pages 0 to 8 lead to pages 4 to 12.
#[test]
fn the_ninth_page_takes_row_0_and_the_others_stay(rt: HostRuntime) -> Result<(), Fail> {
    let mut b = flat(rt.alloc(), 0x2_0000, MAPPED)?;
    play(
        &mut b,
        &[
            Trial::Table(0x2000, [9, 11, 13, 15]),
            Trial::Table(0x2020, [17, 19, 21, 23]),
            Trial::Table(0x2040, [25, 0, 0, 0]),
        ],
    )?;
    for page in 0..8 {
        reads(&mut b, 0x4000_0000 + 0x2000 * page, &[0])?;
    }
    play(
        &mut b,
        &[
            Trial::Register(16, 0x4000_1000),
            Trial::Register(24, 8),
            Trial::Reads(0x4001_0000, &[0]),
            Trial::Register(16, 0x4001_1000),
            Trial::Register(17, 0x4000_3000),
            Trial::Register(18, 0x4000_5000),
            Trial::Register(19, 0x4000_7000),
            Trial::Register(20, 0x4000_9000),
            Trial::Register(21, 0x4000_b000),
            Trial::Register(22, 0x4000_d000),
            Trial::Register(23, 0x4000_f000),
            Trial::Register(24, 24),
            Trial::Register(25, 10),
            Trial::Register(26, 12),
            Trial::Register(27, 14),
            Trial::Register(28, 16),
            Trial::Register(29, 18),
            Trial::Register(30, 20),
            Trial::Register(31, 22),
        ],
    )
}

#[test]
fn two_pci_pages_lead_to_one_line(rt: HostRuntime) -> Result<(), Fail> {
    let mut b = flat(rt.alloc(), 0x8000, MAPPED)?;
    play(
        &mut b,
        &[
            Trial::Table(0x2000, [7, 7, 0, 0]),
            Trial::WriteAnswers(0x4000_0040, &[5], &[15], Ok(counts(1, 1, 0))),
            Trial::Reads(0x4000_2040, &[5]),
            Trial::WriteAnswers(0x4000_2040, &[0x600], &[2], Ok(counts(1, 1, 0))),
            Trial::Reads(0x4000_0040, &[0x605]),
            Trial::Holds(0x6041, 6),
        ],
    )
}

#[test]
fn a_burst_over_two_pci_pages_of_one_page(rt: HostRuntime) -> Result<(), Fail> {
    let mut b = flat(rt.alloc(), 0x8000, MAPPED)?;
    play(
        &mut b,
        &[
            Trial::Table(0x2000, [7, 7, 0, 0]),
            Trial::WriteAnswers(0x4000_1ff8, &[1, 2, 3, 4], &[15; 4], Ok(counts(4, 2, 0))),
            Trial::Reads(0x4000_1ff8, &[1, 2, 3, 4]),
            Trial::Reads(0x4000_0000, &[3, 4]),
            Trial::Reads(0x4000_3ff8, &[1, 2]),
        ],
    )
}

#[test]
fn a_row_serves_until_it_is_invalidated(rt: HostRuntime) -> Result<(), Fail> {
    let mut b = flat(rt.alloc(), 0x8000, MAPPED)?;
    play(
        &mut b,
        &[
            Trial::Fill(0x6000, 1),
            Trial::Fill(0x4000, 2),
            Trial::Table(0x2000, [7, 0, 0, 0]),
            Trial::Reads(0x4000_0000, &[0x0101_0101]),
            Trial::Table(0x2000, [5, 0, 0, 0]),
            Trial::Reads(0x4000_0000, &[0x0101_0101]),
            Trial::SetRegister(32, 0),
            Trial::Register(16, 0),
            Trial::Register(24, 0),
            Trial::Reads(0x4000_0000, &[0x0202_0202]),
        ],
    )
}

#[test]
fn a_write_into_its_own_table_leaves_the_row(rt: HostRuntime) -> Result<(), Fail> {
    let mut b = flat(rt.alloc(), 0x8000, MAPPED)?;
    play(
        &mut b,
        &[
            Trial::Fill(0x6000, 1),
            Trial::Table(0x2000, [3, 0, 0, 0]),
            Trial::WriteAnswers(0x4000_0000, &[7], &[15], Ok(counts(1, 1, 0))),
            Trial::Reads(0x4000_0000, &[7]),
            Trial::Register(24, 2),
            Trial::SetRegister(32, 0),
            Trial::Reads(0x4000_0000, &[0x0101_0101]),
            Trial::Register(24, 6),
        ],
    )
}

// The first line of the burst is the table's line with the entry of the second: page 2 before, page 3 from then on.
#[test]
fn a_burst_meets_the_table_as_it_wrote_it(rt: HostRuntime) -> Result<(), Fail> {
    let mut b = flat(rt.alloc(), 0x8000, TABLE_ENDS_PAGE_1)?;
    play(
        &mut b,
        &[
            Trial::Table(0x3fe0, [3, 5, 0, 0]),
            Trial::WriteAnswers(
                0x400f_9fe0,
                &[7, 0, 7, 0, 0, 0, 0, 0, 9, 9],
                &[15; 10],
                Ok(counts(10, 2, 0)),
            ),
            Trial::Holds(0x6000, 9),
            Trial::Holds(0x4000, 0),
            Trial::Register(24, 2),
            Trial::Register(25, 6),
            Trial::Reads(0x400f_9fe0, &[7, 0, 7]),
            Trial::SetRegister(32, 0),
            Trial::Reads(0x400f_9fe0, &[0, 0, 0]),
        ],
    )
}

#[test]
fn bits_of_an_entry_above_20_are_ignored(rt: HostRuntime) -> Result<(), Fail> {
    let mut b = flat(rt.alloc(), 0x8000, MAPPED)?;
    fill(&mut b, 0x6000, 1)?;
    let mut line = [0xff; 32];
    line[0] = 7;
    line[1] = 0;
    line[2] = 0xe0;
    b.store(0x2000, &line)?;
    play(
        &mut b,
        &[
            Trial::Reads(0x4000_0000, &[0x0101_0101]),
            Trial::Register(24, 6),
        ],
    )
}
