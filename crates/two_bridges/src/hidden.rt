// What hidden lines should hold: what the stores of a list alone make of them.
use crate::memories::first_content;
use crate::places::{PAGE_LINES, PAGES, Side, is_hidden_line};
use bridge::Bridge;
use bridge::calls::{Call, Request, Step};
use memory::Memory;
use std::alloc::{AllocError, Global};

// A line of a hidden page by its address, with its bytes, or none where it is spoiled.
#[derive(Clone, Copy)]
pub struct HiddenLine {
    pub address: u64,
    content: Option<[u8; 32]>,
}

// All lines of hidden pages as they are at first.
pub(crate) fn hidden_lines(heap: Global, side: Side) -> Result<Vec<HiddenLine>, AllocError> {
    let mut lines = Vec::new(heap);
    for line in 0..PAGES * PAGE_LINES {
        if is_hidden_line(line) {
            lines.push(HiddenLine {
                address: line * 32,
                content: first_content(side, line),
            })?;
        }
    }
    Ok(lines)
}

// Takes the store of a step, if it is one to a hidden line.
fn take_store(lines: &mut [HiddenLine], step: &Step) {
    if let Call::Processor(Request::Store { address, bytes }) = &step.call {
        if let Some(line) = lines.iter_mut().find(|line| line.address == *address) {
            line.content = Some(*bytes);
        }
    }
}

// Takes the stores of some steps, in order.
pub(crate) fn take_stores(lines: &mut [HiddenLine], steps: &[Step]) {
    for step in steps {
        take_store(lines, step);
    }
}

// The first line that does not hold what it should.
pub(crate) fn wrong_line<M: Memory>(lines: &[HiddenLine], bridge: &Bridge<M>) -> Option<u64> {
    lines
        .iter()
        .find(|line| bridge.load(line.address).ok() != line.content)
        .map(|line| line.address)
}
