// The three checks of a burst, in their order: bounds, alignment, claim.
use crate::setup::{
    PLAIN, Trial, Window, counts, flat, no_fault, play, read_answers, write_answers,
};
use bridge::bursts::BurstRefusal;
use std::test::Fail;

// PCI FFF0_0000h to FFFF_FFFFh, plain, to address 0 and up.
const HIGHEST: Window = Window {
    translated: 0,
    base: 0xfff8_0000,
    mask: 0,
};

#[test]
fn a_read_of_64_longwords_passes_and_of_65_or_0_does_not(rt: HostRuntime) -> Result<(), Fail> {
    let mut b = flat(rt.alloc(), 512, PLAIN)?;
    play(
        &mut b,
        &[
            Trial::ReadAnswers(0x4000_0000, 65, Err(BurstRefusal::Bounds), &[]),
            Trial::ReadAnswers(0x4000_0000, 0, Err(BurstRefusal::Bounds), &[]),
            Trial::Reads(0x4000_0000, &[0; 64]),
        ],
    )
}

#[test]
fn a_write_of_64_longwords_passes_and_of_65_or_0_does_not(rt: HostRuntime) -> Result<(), Fail> {
    let mut b = flat(rt.alloc(), 512, PLAIN)?;
    play(
        &mut b,
        &[
            Trial::WriteAnswers(0x4000_0000, &[7; 65], &[15; 65], Err(BurstRefusal::Bounds)),
            Trial::WriteAnswers(0x4000_0000, &[], &[], Err(BurstRefusal::Bounds)),
            Trial::Holds(0, 0),
            Trial::WriteAnswers(0x4000_0000, &[7; 64], &[15; 64], Ok(counts(64, 8, 0))),
            Trial::Holds(0xfc, 7),
            Trial::Holds(0x100, 0),
        ],
    )
}

#[test]
fn a_buffer_may_not_be_shorter_than_the_count(rt: HostRuntime) -> Result<(), Fail> {
    let mut b = flat(rt.alloc(), 512, PLAIN)?;
    let mut buffer = [7; 3];
    assert_eq!(rt;
        b.card_read(0x4000_0000, 4, &mut buffer),
        Err(BurstRefusal::Bounds)
    );
    assert_eq!(rt; buffer, [7; 3]);
    assert_eq!(rt; b.card_read(0x4000_0000, 3, &mut buffer), Ok(()));
    assert_eq!(rt; buffer, [0; 3]);
    assert_eq!(rt;
        b.card_write(0x4000_0000, 4, &[7; 3], &[15; 4]),
        Err(BurstRefusal::Bounds)
    );
    write_answers(&mut b, 0x4000_0000, &[7; 3], &[15; 3], Ok(counts(3, 1, 0)))
}

#[test]
fn an_enable_is_needed_for_each_longword_and_at_most_15(rt: HostRuntime) -> Result<(), Fail> {
    let mut b = flat(rt.alloc(), 512, PLAIN)?;
    play(
        &mut b,
        &[
            Trial::WriteAnswers(0x4000_0000, &[7; 2], &[15], Err(BurstRefusal::Bounds)),
            Trial::WriteAnswers(0x4000_0000, &[7; 2], &[15, 16], Err(BurstRefusal::Bounds)),
            Trial::Holds(0, 0),
            Trial::WriteAnswers(0x4000_0000, &[7], &[15, 16], Ok(counts(1, 1, 0))),
            Trial::Holds(0, 7),
        ],
    )
}

#[test]
fn a_burst_may_end_at_the_last_pci_address(rt: HostRuntime) -> Result<(), Fail> {
    let mut b = flat(rt.alloc(), 0x10_0000, HIGHEST)?;
    play(
        &mut b,
        &[
            Trial::Fill(0xf_ffe0, 5),
            Trial::ReadAnswers(0xffff_fffc, 2, Err(BurstRefusal::Bounds), &[]),
            Trial::Reads(0xffff_fffc, &[0x0505_0505]),
            Trial::WriteAnswers(0xffff_fff8, &[6; 3], &[15; 3], Err(BurstRefusal::Bounds)),
            Trial::WriteAnswers(0xffff_fff8, &[6; 2], &[15; 2], Ok(counts(2, 1, 0))),
            Trial::Holds(0xf_fffc, 6),
        ],
    )
}

#[test]
fn reads_are_checked_in_order(rt: HostRuntime) -> Result<(), Fail> {
    let mut b = flat(rt.alloc(), 512, PLAIN)?;
    let cases = [
        (2, 0, BurstRefusal::Bounds),
        (0xffff_fffd, 1, BurstRefusal::Bounds),
        (2, 1, BurstRefusal::Alignment),
        (0x4000_0001, 1, BurstRefusal::Alignment),
        (0x3fff_fffc, 2, BurstRefusal::Unclaimed),
        (0x8000_0000, 1, BurstRefusal::Unclaimed),
    ];
    for (pci, count, refusal) in cases {
        read_answers(&mut b, pci, count, Err(refusal), &[])?;
    }
    no_fault(&b)
}

#[test]
fn writes_are_checked_in_order(rt: HostRuntime) -> Result<(), Fail> {
    let mut b = flat(rt.alloc(), 512, PLAIN)?;
    let cases = [
        (2, 16, BurstRefusal::Bounds),
        (0xffff_fffc, 15, BurstRefusal::Bounds),
        (2, 15, BurstRefusal::Alignment),
        (0x4000_0003, 15, BurstRefusal::Alignment),
        (0x3fff_fffc, 15, BurstRefusal::Unclaimed),
        (0x8000_0000, 15, BurstRefusal::Unclaimed),
    ];
    for (pci, enable, refusal) in cases {
        write_answers(&mut b, pci, &[7; 2], &[15, enable], Err(refusal))?;
    }
    no_fault(&b)
}
