// Calls as values: they answer as the single calls do.
use crate::setup::{PLAIN, counts, flat, holds};
use bridge::calls::{Burst, Call, CallAnswer, Request, Step};
use bridge::processor::AccessRefusal;
use memory::MemoryFault;
use std::test::Fail;

// A call that is still to be performed.
fn to_perform(call: Call) -> Step {
    Step { call, answer: None }
}

fn asked(request: Request) -> Step {
    to_perform(Call::Processor(request))
}

#[test]
fn a_performed_read_fills_its_buffer(rt: HostRuntime) -> Result<(), Fail> {
    let mut b = flat(rt.alloc(), 64, PLAIN)?;
    let buffer = vec![in rt.alloc(); 7; 3]?;
    let mut call = Call::Card(Burst::CardRead {
        pci: 0x4000_003c,
        count: 1,
        buffer,
    });
    assert_eq!(rt; b.perform(&mut call), CallAnswer::CardRead(Ok(())));
    let Call::Card(Burst::CardRead { pci, count, buffer }) = &call else {
        return Err(Fail::new("another call"));
    };
    assert_eq!(rt; *pci, 0x4000_003c);
    assert_eq!(rt; *count, 1);
    assert!(rt; buffer.as_slice() == [0, 7, 7].as_slice());
    Ok(())
}

#[test]
fn a_performed_write_is_stored(rt: HostRuntime) -> Result<(), Fail> {
    let mut b = flat(rt.alloc(), 64, PLAIN)?;
    let words = vec![in rt.alloc(); 5; 2]?;
    let enables = vec![in rt.alloc(); 15; 2]?;
    let mut call = Call::Card(Burst::CardWrite {
        pci: 0x4000_003c,
        count: 2,
        words,
        enables,
    });
    let counts = counts(2, 1, 1);
    assert_eq!(rt; b.perform(&mut call), CallAnswer::CardWrite(Ok(counts)));
    holds(&b, 0x3c, 5)
}

#[test]
fn a_run_keeps_each_answer_beside_its_call(rt: HostRuntime) -> Result<(), Fail> {
    let mut b = flat(rt.alloc(), 64, PLAIN)?;
    let mut steps = [
        asked(Request::RegisterWrite {
            n: 8,
            value: 0x5008_ffff,
        }),
        asked(Request::RegisterRead { n: 8 }),
        asked(Request::Store {
            address: 64,
            bytes: [1; 32],
        }),
        asked(Request::LogRead),
    ];
    b.run(&mut steps);
    let done = &steps[..];
    assert_eq!(rt; done[0].answer, Some(CallAnswer::RegisterWrite(Ok(()))));
    assert_eq!(rt;
        done[1].answer,
        Some(CallAnswer::RegisterRead(Ok(0x5008_0000)))
    );
    let absent = AccessRefusal::Memory(MemoryFault::Absent(2));
    assert_eq!(rt; done[2].answer, Some(CallAnswer::Store(Err(absent))));
    assert_eq!(rt; done[3].answer, Some(CallAnswer::LogRead(None)));
    Ok(())
}

#[test]
fn a_run_serves_cards_in_order(rt: HostRuntime) -> Result<(), Fail> {
    let mut b = flat(rt.alloc(), 64, PLAIN)?;
    let words = vec![in rt.alloc(); 5; 1]?;
    let enables = vec![in rt.alloc(); 15; 1]?;
    let write = Call::Card(Burst::CardWrite {
        pci: 0x4000_0020,
        count: 1,
        words,
        enables,
    });
    let buffer = vec![in rt.alloc(); 7; 3]?;
    let read = Call::Card(Burst::CardRead {
        pci: 0x4000_0020,
        count: 2,
        buffer,
    });
    let mut steps = [to_perform(write), to_perform(read)];
    b.run(&mut steps);
    let done = &steps[..];
    let counts = counts(1, 1, 0);
    assert_eq!(rt; done[0].answer, Some(CallAnswer::CardWrite(Ok(counts))));
    let read = &done[1];
    assert_eq!(rt; read.answer, Some(CallAnswer::CardRead(Ok(()))));
    let Call::Card(Burst::CardRead { buffer, .. }) = &read.call else {
        return Err(Fail::new("another call"));
    };
    assert!(rt; buffer.as_slice() == [5, 0, 7].as_slice());
    Ok(())
}
