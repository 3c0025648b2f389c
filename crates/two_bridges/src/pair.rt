// Two bridges that perform alike calls, and what is compared after each.
ghost use Rattle.bridge.specs.Isolation.{IsolatedRuns};
ghost use Rattle.bridge.specs.State.{state_of};

use crate::places::is_hidden;
use bridge::calls::{Burst, Call, Request, Step};
use bridge::{Bridge, new_pair};
use memory::Memory;
use std::fmt;

// Two bridges that perform the same calls, but for the bytes of stores into hidden pages.
#[derive(Drop)]
pub struct Pair<L: Memory, R: Memory> {
    pub left: Bridge<L>,
    pub right: Bridge<R>,
}

// What is not the same on the two sides.
#[derive(Clone, Copy, Debug, PartialEq, Eq)]
pub enum Part {
    CardAnswer,
    CardBuffer,
    ProcessorAnswer,
    Register(u64),
    Log,
}

// Where two runs part: the index of the call, and what is not the same after it.
#[derive(Clone, Copy, Debug, PartialEq, Eq)]
pub struct Difference {
    pub call: usize,
    pub part: Part,
}

impl Difference {
    // Whether it is one that a card sees.
    pub(crate) fn is_told_to_cards(&self) -> bool {
        matches!(self.part, Part::CardAnswer | Part::CardBuffer)
    }
}

impl fmt::Display for Part {
    fn fmt<W: fmt::Write>(&self, f: &mut fmt::Formatter<W>) -> fmt::Result {
        match self {
            Part::CardAnswer => write!(f, "the answers to the card"),
            Part::CardBuffer => write!(f, "the buffers of the card"),
            Part::ProcessorAnswer => write!(f, "the answers to the processor"),
            Part::Register(n) => write!(f, "the values of register {n}"),
            Part::Log => write!(f, "the logs"),
        }
    }
}

impl fmt::Display for Difference {
    fn fmt<W: fmt::Write>(&self, f: &mut fmt::Formatter<W>) -> fmt::Result {
        let Difference { call, part } = self;
        write!(f, "{part} differ at call {call}")
    }
}

// Whether a call is a load of a hidden page, whose answer may differ.
fn loads_hidden(call: &Call) -> bool {
    match call {
        Call::Processor(Request::Load { address }) => is_hidden(*address),
        _ => false,
    }
}

// What a card read has filled; nothing for any other call.
fn buffer_of(call: &Call) -> &[u32] {
    match call {
        Call::Card(Burst::CardRead { buffer, .. }) => buffer.as_slice(),
        _ => &[],
    }
}

// Answers to loads of hidden pages may differ, all others may not.
fn compare_steps(left: &Step, right: &Step) -> Result<(), Part> {
    if left.answer != right.answer && !loads_hidden(&left.call) {
        return Err(match left.call {
            Call::Processor(_) => Part::ProcessorAnswer,
            Call::Card(_) => Part::CardAnswer,
        });
    }
    if buffer_of(&left.call) != buffer_of(&right.call) {
        return Err(Part::CardBuffer);
    }
    Ok(())
}

impl<L: Memory, R: Memory> Pair<L, R> {
    // Two new bridges. That they are isolated is the theorem that `new_pair` promises.
    pub(crate) fn new(left: L, right: R) -> Pair<L, R>
        ensures { IsolatedRuns (state_of L.Memory.content result.left) (state_of R.Memory.content result.right) }
    {
        let (left, right) = new_pair(left, right);
        Pair { left, right }
    }

    // The look-aside rows are among the registers, and so are numbers that name none.
    fn compare_registers(&self) -> Result<(), Part> {
        for n in 0..40 {
            if self.left.register_read(n) != self.right.register_read(n) {
                return Err(Part::Register(n));
            }
        }
        Ok(())
    }

    fn compare_logs(&self) -> Result<(), Part> {
        if self.left.log_read() == self.right.log_read() {
            Ok(())
        } else {
            Err(Part::Log)
        }
    }

    // Performs a call on both sides, and compares all that the theorem says is the same.
    fn perform(&mut self, left: &mut Step, right: &mut Step) -> Result<(), Part> {
        left.answer = Some(self.left.perform(&mut left.call));
        right.answer = Some(self.right.perform(&mut right.call));
        compare_steps(left, right)?;
        self.compare_registers()?;
        self.compare_logs()
    }

    // Performs two lists of calls, up to the first difference.
    pub(crate) fn run(&mut self, left: &mut [Step], right: &mut [Step]) -> Result<(), Difference> {
        for (call, (left, right)) in left.iter_mut().zip(right.iter_mut()).enumerate() {
            self.perform(left, right)
                .map_err(|part| Difference { call, part })?;
        }
        Ok(())
    }
}
