// Tests of the memories at their edges. The expected values are worked out from the rules in docs/MEMORIES.md.
#![tactic(auto)]

#[cfg(test)]
mod tests {
    use memory::bank_list::BankList;
    use memory::banked::Banked;
    use memory::banks::{Bank, BankFault, BankListRefusal};
    use memory::flat::Flat;
    use memory::marks::{MarkRefusal, Marks};
    use memory::{Memory, MemoryFault};
    use shifted_memory::Shifted;
    use std::test::Fail;

    const ONES: u32 = u32::MAX;

    // What a list of banks for n bytes is refused with.
    fn refused(banks: &[Bank], n: usize) -> Option<BankListRefusal> {
        BankList::new(banks, n).err()
    }

    fn bank(base: u64, size: u64) -> Bank {
        Bank { base, size }
    }

    // Byte i of a line that is good.
    fn byte<M: Memory>(m: &M, line: u64, i: usize) -> Result<u8, Fail> {
        let mut place = [0xee; 32];
        m.read(line, &mut place)?;
        place
            .get(i)
            .copied()
            .ok_or_else(|| Fail::new("no such byte"))
    }

    #[test]
    fn a_flat_memory_has_whole_lines_only(rt: HostRuntime) -> Result<(), Fail> {
        let m = Flat::zeros(rt.alloc(), 95)?;
        assert!(rt; m.present(0));
        assert!(rt; m.present(1));
        assert!(rt; !m.present(2));
        assert!(rt; !m.present(u64::MAX));
        let mut place = [7; 32];
        assert_eq!(rt; m.read(2, &mut place), Err(MemoryFault::Absent(2)));
        assert_eq!(rt; place[0], 7);
        assert_eq!(rt; m.read(1, &mut place), Ok(()));
        assert_eq!(rt; place[31], 0);
        Ok(())
    }

    #[test]
    fn a_mask_of_0_changes_nothing(rt: HostRuntime) -> Result<(), Fail> {
        let mut m = Marks::new(rt.alloc(), Flat::zeros(rt.alloc(), 64)?)?;
        assert_eq!(rt; m.write(0, &[1; 32], ONES), Ok(()));
        assert_eq!(rt; m.write(0, &[2; 32], 0), Ok(()));
        assert_eq!(rt; byte(&m, 0, 0)?, 1);
        assert_eq!(rt; m.write(2, &[2; 32], 0), Err(MemoryFault::Absent(2)));
        assert_eq!(rt; m.mark(1), Ok(()));
        assert_eq!(rt; m.write(1, &[2; 32], 0), Ok(()));
        let mut place = [7; 32];
        assert_eq!(rt; m.read(1, &mut place), Err(MemoryFault::Spoiled(1)));
        Ok(())
    }

    #[test]
    fn a_mask_picks_bytes_from_its_low_end(rt: HostRuntime) -> Result<(), Fail> {
        let mut m = Flat::zeros(rt.alloc(), 64)?;
        assert_eq!(rt; m.write(1, &[9; 32], 0x8000_0001), Ok(()));
        assert_eq!(rt; byte(&m, 1, 0)?, 9);
        assert_eq!(rt; byte(&m, 1, 1)?, 0);
        assert_eq!(rt; byte(&m, 1, 30)?, 0);
        assert_eq!(rt; byte(&m, 1, 31)?, 9);
        assert_eq!(rt; byte(&m, 0, 31)?, 0);
        Ok(())
    }

    #[test]
    fn a_spoiled_line_needs_a_full_write(rt: HostRuntime) -> Result<(), Fail> {
        let mut m = Marks::new(rt.alloc(), Flat::zeros(rt.alloc(), 64)?)?;
        let mut place = [7; 32];
        assert_eq!(rt; m.mark(1), Ok(()));
        assert!(rt; m.present(1));
        assert_eq!(rt; m.read(1, &mut place), Err(MemoryFault::Spoiled(1)));
        assert_eq!(rt; place[0], 7);
        assert_eq!(rt; m.write(1, &[5; 32], 0x7fff_ffff), Ok(()));
        assert_eq!(rt; m.read(1, &mut place), Err(MemoryFault::Spoiled(1)));
        assert_eq!(rt; m.write(1, &[6; 32], ONES), Ok(()));
        assert_eq!(rt; byte(&m, 1, 31)?, 6);
        Ok(())
    }

    #[test]
    fn the_33rd_mark_is_refused(rt: HostRuntime) -> Result<(), Fail> {
        let mut m = Marks::new(rt.alloc(), Flat::zeros(rt.alloc(), 40 * 32)?)?;
        for line in 0..32 {
            assert_eq!(rt; m.mark(line), Ok(()));
        }
        let mut place = [7; 32];
        for line in 0..32 {
            assert_eq!(rt; m.read(line, &mut place), Err(MemoryFault::Spoiled(line)));
        }
        assert_eq!(rt; m.read(32, &mut place), Ok(()));
        assert_eq!(rt; m.mark(0), Ok(()));
        assert_eq!(rt; m.mark(32), Err(MarkRefusal::Full));
        assert_eq!(rt; m.mark(40), Err(MarkRefusal::Absent));
        assert_eq!(rt; m.write(31, &[1; 32], ONES), Ok(()));
        assert_eq!(rt; m.mark(32), Ok(()));
        assert_eq!(rt; m.mark(33), Err(MarkRefusal::Full));
        Ok(())
    }

    #[test]
    fn the_last_line_is_bffffff(rt: HostRuntime) -> Result<(), Fail> {
        let list = BankList::new(&[bank(0x1_7fff_e000, 0x2000)], 0x2000)?;
        let mut m = Banked::zeros(rt.alloc(), list)?;
        assert!(rt; !m.present(0xbff_feff));
        assert!(rt; m.present(0xbff_ff00));
        assert!(rt; m.present(0xbff_ffff));
        assert!(rt; !m.present(0xc00_0000));
        assert_eq!(rt; m.write(0xbff_ffff, &[3; 32], ONES), Ok(()));
        assert_eq!(rt; byte(&m, 0xbff_ffff, 31)?, 3);
        assert_eq!(rt; byte(&m, 0xbff_fffe, 31)?, 0);
        Ok(())
    }

    #[test]
    fn banks_lie_one_behind_the_other(rt: HostRuntime) -> Result<(), Fail> {
        let banks = [bank(0x8000, 0x4000), bank(0, 0x2000), bank(0x4000, 0x2000)];
        let list = BankList::new(&banks, 0x8000)?;
        let mut m = Banked::zeros(rt.alloc(), list)?;
        assert!(rt; m.present(0xff));
        assert!(rt; !m.present(0x100));
        assert!(rt; m.present(0x200));
        assert!(rt; !m.present(0x300));
        assert!(rt; m.present(0x5ff));
        assert!(rt; !m.present(0x600));
        assert_eq!(rt; m.write(0x200, &[4; 32], ONES), Ok(()));
        assert_eq!(rt; byte(&m, 0x200, 0)?, 4);
        assert_eq!(rt; byte(&m, 0xff, 31)?, 0);
        assert_eq!(rt; byte(&m, 0x5ff, 31)?, 0);
        Ok(())
    }

    #[test]
    fn a_bank_list_is_checked_in_order(rt: HostRuntime) {
        let size = Some(BankListRefusal::Bank(0, BankFault::Size));
        let base = Some(BankListRefusal::Bank(0, BankFault::Base));
        let end = Some(BankListRefusal::Bank(0, BankFault::End));
        let none = [bank(0, 0x2000); 0];
        assert_eq!(rt; refused(&none, 0x2000), Some(BankListRefusal::Count));
        assert_eq!(rt; refused(&[bank(0, 0); 9], 0), Some(BankListRefusal::Count));
        assert_eq!(rt; refused(&[bank(1, 0x1000)], 0), size);
        assert_eq!(rt; refused(&[bank(0, 0x3000)], 0x3000), size);
        assert_eq!(rt; refused(&[bank(0, 0x8000_0000)], 0x8000_0000), size);
        assert_eq!(rt; refused(&[bank(0x2000, 0x4000)], 0x4000), base);
        assert_eq!(rt; refused(&[bank(0xffff_ffff_ffff_e001, 0x2000)], 0), base);
        assert_eq!(rt; refused(&[bank(0xffff_ffff_ffff_e000, 0x2000)], 0), end);
        assert_eq!(rt; refused(&[bank(0x1_8000_0000, 0x2000)], 0), end);
    }

    #[test]
    fn a_bank_list_is_refused_by_its_first_bank_at_fault(rt: HostRuntime) {
        let twice = [bank(0, 0x2000), bank(0x4000, 0x2000), bank(0, 0x4000)];
        let overlap = Some(BankListRefusal::Bank(2, BankFault::Overlap));
        assert_eq!(rt; refused(&twice, 0), overlap);
        let eight = [
            bank(0x2000, 0x2000),
            bank(0, 0x2000),
            bank(0x4000, 0x4000),
            bank(0x8000, 0x2000),
            bank(0xa000, 0x2000),
            bank(0xc000, 0x4000),
            bank(0x1_0000, 0x2000),
            bank(0x4000_0000, 0x4000_0000),
        ];
        assert_eq!(rt; refused(&eight, 0x4001_2000), None);
        assert_eq!(rt; refused(&eight, 0x4001_1fff), Some(BankListRefusal::Total));
    }

    // Two lines and most of a third.
    #[test]
    fn longwords_are_read_up_to_the_first_line_that_is_not_good(
        rt: HostRuntime,
    ) -> Result<(), Fail> {
        let mut m = Flat::zeros(rt.alloc(), 95)?;
        assert_eq!(rt; m.write(1, &[9; 32], 0xff), Ok(()));
        let mut place = [7; 10];
        assert_eq!(rt; m.read_longwords(7, &mut place), Ok(9));
        assert_eq!(rt; place, [0, 0x0909_0909, 0x0909_0909, 0, 0, 0, 0, 0, 0, 7]);
        assert_eq!(rt;
            m.read_longwords(16, &mut place),
            Err(MemoryFault::Absent(2))
        );
        assert_eq!(rt;
            m.read_longwords(u64::MAX, &mut place),
            Err(MemoryFault::Absent(u64::MAX / 8))
        );
        assert_eq!(rt; place[0], 0);
        assert_eq!(rt; m.read_longwords(15, &mut place[..0]), Ok(0));
        assert_eq!(rt;
            m.read_longwords(16, &mut place[..0]),
            Err(MemoryFault::Absent(2))
        );
        Ok(())
    }

    // The addresses of the first bank follow those of the second.
    #[test]
    fn longwords_are_read_from_one_bank_into_another(rt: HostRuntime) -> Result<(), Fail> {
        let banks = [bank(0x2000, 0x2000), bank(0, 0x2000), bank(0x8000, 0x8000)];
        let mut m = Banked::zeros(rt.alloc(), BankList::new(&banks, 0xc000)?)?;
        assert_eq!(rt; m.write(0xff, &[1; 32], ONES), Ok(()));
        assert_eq!(rt; m.write(0x100, &[2; 32], ONES), Ok(()));
        assert_eq!(rt; m.write(0x1ff, &[3; 32], ONES), Ok(()));
        let mut place = [7; 5];
        assert_eq!(rt; m.read_longwords(0x7fd, &mut place), Ok(5));
        assert_eq!(rt;
            place,
            [
                0x0101_0101,
                0x0101_0101,
                0x0101_0101,
                0x0202_0202,
                0x0202_0202
            ]
        );
        assert_eq!(rt; m.read_longwords(0xffe, &mut place), Ok(2));
        assert_eq!(rt;
            place,
            [
                0x0303_0303,
                0x0303_0303,
                0x0101_0101,
                0x0202_0202,
                0x0202_0202
            ]
        );
        assert_eq!(rt;
            m.read_longwords(0x1000, &mut place),
            Err(MemoryFault::Absent(0x200))
        );
        Ok(())
    }

    // The addresses of three banks follow one another.
    #[test]
    fn longwords_are_read_from_three_banks(rt: HostRuntime) -> Result<(), Fail> {
        let banks = [bank(0, 0x2000), bank(0x4000, 0x2000), bank(0x2000, 0x2000)];
        let mut m = Banked::zeros(rt.alloc(), BankList::new(&banks, 0x6000)?)?;
        assert_eq!(rt; m.write(0xff, &[1; 32], ONES), Ok(()));
        assert_eq!(rt; m.write(0x100, &[2; 32], ONES), Ok(()));
        assert_eq!(rt; m.write(0x200, &[3; 32], ONES), Ok(()));
        let mut place = [7; 2058];
        assert_eq!(rt; m.read_longwords(0x7ff, &mut place), Ok(2058));
        assert_eq!(rt; place[0], 0x0101_0101);
        assert_eq!(rt; place[1], 0x0202_0202);
        assert_eq!(rt; place[2048], 0);
        assert_eq!(rt; place[2049], 0x0303_0303);
        assert_eq!(rt; place[2057], 0);
        Ok(())
    }

    // Lines 2 and 8002h have the same hint.
    #[test]
    fn longwords_are_read_up_to_a_marked_line(rt: HostRuntime) -> Result<(), Fail> {
        let mut m = Marks::new(rt.alloc(), Flat::zeros(rt.alloc(), 0x8003 * 32)?)?;
        let mut place = [7; 64];
        assert_eq!(rt; m.mark(0x8002), Ok(()));
        assert_eq!(rt;
            m.read_longwords(0x4_0010, &mut place),
            Err(MemoryFault::Spoiled(0x8002))
        );
        assert_eq!(rt; m.read_longwords(3, &mut place), Ok(64));
        assert_eq!(rt; place[63], 0);
        assert_eq!(rt; m.mark(2), Ok(()));
        let mut place = [7; 64];
        assert_eq!(rt; m.read_longwords(3, &mut place), Ok(13));
        assert_eq!(rt; place[12], 0);
        assert_eq!(rt; place[13], 7);
        assert_eq!(rt;
            m.read_longwords(16, &mut place),
            Err(MemoryFault::Spoiled(2))
        );
        assert_eq!(rt; m.read_longwords(24, &mut place), Ok(64));
        assert_eq!(rt; m.read_longwords(0x8001 * 8, &mut place), Ok(8));
        Ok(())
    }

    // Line 100h is line 0 of the memory below, which has two lines.
    #[test]
    fn a_shifted_memory_begins_at_its_first_line(rt: HostRuntime) -> Result<(), Fail> {
        let below = Marks::new(rt.alloc(), Flat::zeros(rt.alloc(), 64)?)?;
        let mut m = Shifted::new(below, 0x100);
        assert!(rt; !m.present(0));
        assert!(rt; !m.present(0xff));
        assert!(rt; m.present(0x100));
        assert!(rt; m.present(0x101));
        assert!(rt; !m.present(0x102));
        assert!(rt; !m.present(u64::MAX));
        assert_eq!(rt; m.write(0x101, &[4; 32], ONES), Ok(()));
        assert_eq!(rt; byte(&m, 0x101, 31)?, 4);
        assert_eq!(rt; byte(&m, 0x100, 31)?, 0);
        let mut place = [7; 32];
        assert_eq!(rt; m.read(0xff, &mut place), Err(MemoryFault::Absent(0xff)));
        assert_eq!(rt; m.read(0x102, &mut place), Err(MemoryFault::Absent(0x102)));
        assert_eq!(rt;
            m.write(0x102, &[4; 32], 1),
            Err(MemoryFault::Absent(0x102))
        );
        assert_eq!(rt; place[0], 7);
        Ok(())
    }

    #[test]
    fn a_shifted_memory_names_its_own_lines(rt: HostRuntime) -> Result<(), Fail> {
        let mut m = Shifted::new(Flat::zeros(rt.alloc(), 64)?, 0x100);
        assert_eq!(rt; m.write(0x101, &[4; 32], ONES), Ok(()));
        let mut words = [7; 9];
        assert_eq!(rt; m.read_longwords(0x80b, &mut words), Ok(5));
        assert_eq!(rt;
            words,
            [
                0x0404_0404,
                0x0404_0404,
                0x0404_0404,
                0x0404_0404,
                0x0404_0404,
                7,
                7,
                7,
                7
            ]
        );
        assert_eq!(rt;
            m.read_longwords(0x7ff, &mut words),
            Err(MemoryFault::Absent(0xff))
        );
        Ok(())
    }

    // It has no body of its own for a read of longwords.
    #[test]
    fn a_shifted_memory_reads_longwords_line_by_line(rt: HostRuntime) -> Result<(), Fail> {
        let mut m = Shifted::new(Flat::zeros(rt.alloc(), 96)?, 0x100);
        assert_eq!(rt; m.write(0x100, &[1; 32], ONES), Ok(()));
        assert_eq!(rt; m.write(0x101, &[2; 32], ONES), Ok(()));
        assert_eq!(rt; m.write(0x102, &[3; 32], ONES), Ok(()));
        let mut place = [7; 20];
        assert_eq!(rt; m.read_longwords(0x806, &mut place), Ok(18));
        assert_eq!(rt; place[1], 0x0101_0101);
        assert_eq!(rt; place[2], 0x0202_0202);
        assert_eq!(rt; place[9], 0x0202_0202);
        assert_eq!(rt; place[10], 0x0303_0303);
        assert_eq!(rt; place[17], 0x0303_0303);
        assert_eq!(rt; place[18], 7);
        Ok(())
    }

    #[test]
    fn a_shifted_memory_ends_where_every_memory_ends(rt: HostRuntime) -> Result<(), Fail> {
        let m = Shifted::new(Flat::zeros(rt.alloc(), 64)?, 0xbff_ffff);
        assert!(rt; m.present(0xbff_ffff));
        assert!(rt; !m.present(0xc00_0000));
        Ok(())
    }
}
