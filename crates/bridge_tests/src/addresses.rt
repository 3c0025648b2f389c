// Where PCI addresses lead, over memories that leave most addresses absent.
use crate::setup::{NONE, PLAIN, Trial, Window, absent, banked, counts, play, shifted};
use bridge::bursts::BurstRefusal;
use std::test::Fail;

// PCI 0080_0000h to 00FF_FFFFh, mapped by tables at 1_0000h, one for each megabyte.
const MAPPED_2: Window = Window {
    translated: 0x8000,
    base: 0x008c_0000,
    mask: 0x0070_0000,
};

#[test]
fn a_plain_window_leads_by_mask(rt: HostRuntime) -> Result<(), Fail> {
    let mut b = banked(rt.alloc(), [0x0123_4000, 0x3fff_e000], PLAIN, NONE)?;
    play(
        &mut b,
        &[
            Trial::Fill(0x91a2b * 32, 1),
            Trial::Fill(0x3fff_ffe0, 2),
            Trial::Reads(0x4123_4560, &[0x0101_0101]),
            Trial::Reads(0x7fff_fffc, &[0x0202_0202]),
            Trial::ReadAnswers(0x3fff_fffc, 1, Err(BurstRefusal::Unclaimed), &[]),
            Trial::ReadAnswers(0x8000_0000, 1, Err(BurstRefusal::Unclaimed), &[]),
        ],
    )
}

#[test]
fn a_mapped_window_finds_its_entry_by_mask(rt: HostRuntime) -> Result<(), Fail> {
    let mut b = banked(rt.alloc(), [0x1_0000, 0x6000], NONE, MAPPED_2)?;
    play(
        &mut b,
        &[
            Trial::Table(0x1_0000, [0, 7, 0, 0]),
            Trial::Table(0x1_1c00, [0, 0, 7, 0]),
            Trial::WriteAnswers(0x0080_2004, &[5], &[15], Ok(counts(1, 1, 0))),
            Trial::Holds(0x6004, 5),
            Trial::Reads(0x00f0_4000, &[0, 5]),
        ],
    )
}

// Entry 0 is 17_FFFFh, entry 1 is 1F_FFFFh.
#[test]
fn the_last_page_is_bffff(rt: HostRuntime) -> Result<(), Fail> {
    let mut b = banked(rt.alloc(), [0x1_0000, 0x1_7fff_e000], NONE, MAPPED_2)?;
    let mut line = [0; 32];
    line[0] = 0xff;
    line[1] = 0xff;
    line[2] = 0x17;
    line[8] = 0xff;
    line[9] = 0xff;
    line[10] = 0x1f;
    b.store(0x1_0000, &line)?;
    play(
        &mut b,
        &[
            Trial::Fill(0x1_7fff_ffe0, 3),
            Trial::Reads(0x0080_1ffc, &[0x0303_0303]),
            Trial::ReadAnswers(0x0080_2000, 1, absent(0, 0x0080_2000, 0xfff_ff00), &[]),
        ],
    )
}

// Both windows hold 4000_0000h to 400F_FFFFh, and the second alone the megabyte behind, which it sends above 4 gigabytes.
#[test]
fn window_1_is_tried_before_window_2(rt: HostRuntime) -> Result<(), Fail> {
    let first = Window {
        translated: 0,
        base: 0x4008_0000,
        mask: 0,
    };
    let second = Window {
        translated: 0x8000_0000,
        base: 0x4008_0000,
        mask: 0x0010_0000,
    };
    let mut b = banked(rt.alloc(), [0xf_e000, 0x1_0010_0000], first, second)?;
    play(
        &mut b,
        &[
            Trial::Fill(0xf_ffe0, 1),
            Trial::Fill(0x1_0010_0000, 2),
            Trial::Reads(0x400f_fffc, &[0x0101_0101, 0x0202_0202]),
        ],
    )
}

#[test]
fn a_burst_past_a_bank_does_not_reach_the_next(rt: HostRuntime) -> Result<(), Fail> {
    let mut b = banked(rt.alloc(), [0, 0x4000], PLAIN, NONE)?;
    play(
        &mut b,
        &[
            Trial::Fill(0x1fe0, 1),
            Trial::ReadAnswers(
                0x4000_1ff8,
                4,
                absent(2, 0x4000_2000, 0x100),
                &[0x0101_0101; 2],
            ),
            Trial::WriteAnswers(0x4000_1ff8, &[5; 4], &[15; 4], Ok(counts(4, 1, 1))),
            Trial::Holds(0x1ffc, 5),
            Trial::Holds(0x4000, 0),
        ],
    )
}

// Lines 100h and 101h are there.
#[test]
fn a_memory_may_begin_at_a_later_line(rt: HostRuntime) -> Result<(), Fail> {
    let mut b = shifted(rt.alloc(), 64, 0x100, PLAIN)?;
    play(
        &mut b,
        &[
            Trial::Fill(0x2000, 1),
            Trial::Reads(0x4000_201c, &[0x0101_0101, 0]),
            Trial::ReadAnswers(0x4000_1ffc, 2, absent(0, 0x4000_1ffc, 0xff), &[]),
            Trial::ReadAnswers(0x4000_203c, 2, absent(1, 0x4000_2040, 0x102), &[0]),
            Trial::WriteAnswers(0x4000_1ffc, &[5; 2], &[15; 2], Ok(counts(2, 1, 1))),
            Trial::Holds(0x2000, 5),
        ],
    )
}
