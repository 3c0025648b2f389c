// What the processor's loads, stores and register writes change, and which addresses they take.
use crate::setup::{NONE, PLAIN, fill, flat, holds, marked, spoiled};
use bridge::processor::AccessRefusal;
use bridge::registers::RegisterRefusal;
use memory::MemoryFault;
use std::test::Fail;

#[test]
fn loads_and_stores_carry_a_line(rt: HostRuntime) -> Result<(), Fail> {
    let mut b = flat(rt.alloc(), 64, PLAIN)?;
    assert_eq!(rt; b.store(32, &[5; 32]), Ok(()));
    assert_eq!(rt; b.load(32), Ok([5; 32]));
    assert_eq!(rt; b.load(0), Ok([0; 32]));
    let absent = AccessRefusal::Memory(MemoryFault::Absent(2));
    assert_eq!(rt; b.load(64), Err(absent));
    assert_eq!(rt; b.store(64, &[5; 32]), Err(absent));
    Ok(())
}

#[test]
fn a_load_or_store_has_the_address_of_a_line(rt: HostRuntime) -> Result<(), Fail> {
    let mut b = flat(rt.alloc(), 64, PLAIN)?;
    for address in [1, 8, 31, 48, 0x1_8000_0000, u64::MAX - 31] {
        assert_eq!(rt; b.load(address), Err(AccessRefusal::Address));
        assert_eq!(rt; b.store(address, &[5; 32]), Err(AccessRefusal::Address));
    }
    let last = AccessRefusal::Memory(MemoryFault::Absent(0xbff_ffff));
    assert_eq!(rt; b.load(0x1_7fff_ffe0), Err(last));
    assert_eq!(rt; b.store(0x1_7fff_ffe0, &[5; 32]), Err(last));
    holds(&b, 0, 0)?;
    holds(&b, 48, 0)
}

#[test]
fn a_store_makes_a_spoiled_line_good(rt: HostRuntime) -> Result<(), Fail> {
    let mut b = marked(rt.alloc(), 64, PLAIN)?;
    b.mark(1)?;
    spoiled(&b, 1)?;
    assert_eq!(rt; b.store(32, &[5; 32]), Ok(()));
    holds(&b, 63, 5)
}

// Every number, also those that are refused.
#[test]
fn a_register_write_changes_no_memory(rt: HostRuntime) -> Result<(), Fail> {
    let mut b = flat(rt.alloc(), 64, NONE)?;
    fill(&mut b, 32, 5)?;
    for n in 0..40 {
        let _ = b.register_write(n, u32::MAX);
    }
    holds(&b, 31, 0)?;
    holds(&b, 32, 5)
}

#[test]
fn a_refused_register_call_names_its_cause(rt: HostRuntime) -> Result<(), Fail> {
    let mut b = flat(rt.alloc(), 64, NONE)?;
    assert_eq!(rt; b.register_read(15), Err(RegisterRefusal::NotListed));
    assert_eq!(rt; b.register_write(15, 1), Err(RegisterRefusal::NotListed));
    assert_eq!(rt; b.register_write(16, 1), Err(RegisterRefusal::ReadOnly));
    assert_eq!(rt; b.register_write(31, 1), Err(RegisterRefusal::ReadOnly));
    assert_eq!(rt; b.register_read(31), Ok(0));
    Ok(())
}
