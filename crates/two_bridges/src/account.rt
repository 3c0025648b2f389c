// What was done, counted from the calls and their answers.
use crate::places::is_hidden;
use bridge::calls::{Burst, Call, CallAnswer, Request, Step};
use memory::refusals::Refusal;
use std::fmt;

#[derive(Clone, Copy, Debug, PartialEq, Eq)]
enum Kind {
    RegisterRead,
    RegisterWrite,
    Load,
    Store,
    Decode,
    LogRead,
    LogClear,
    CardRead,
    CardWrite,
}

const KINDS: [Kind; 9] = [
    Kind::RegisterRead,
    Kind::RegisterWrite,
    Kind::Load,
    Kind::Store,
    Kind::Decode,
    Kind::LogRead,
    Kind::LogClear,
    Kind::CardRead,
    Kind::CardWrite,
];

impl fmt::Display for Kind {
    fn fmt<W: fmt::Write>(&self, f: &mut fmt::Formatter<W>) -> fmt::Result {
        f.write_str(match self {
            Kind::RegisterRead => "register read",
            Kind::RegisterWrite => "register write",
            Kind::Load => "load",
            Kind::Store => "store",
            Kind::Decode => "decode",
            Kind::LogRead => "log read",
            Kind::LogClear => "log clear",
            Kind::CardRead => "card read",
            Kind::CardWrite => "card write",
        })
    }
}

fn kind_of(call: &Call) -> Kind {
    match call {
        Call::Processor(Request::RegisterRead { .. }) => Kind::RegisterRead,
        Call::Processor(Request::RegisterWrite { .. }) => Kind::RegisterWrite,
        Call::Processor(Request::Load { .. }) => Kind::Load,
        Call::Processor(Request::Store { .. }) => Kind::Store,
        Call::Processor(Request::Decode { .. }) => Kind::Decode,
        Call::Processor(Request::LogRead) => Kind::LogRead,
        Call::Processor(Request::LogClear) => Kind::LogClear,
        Call::Card(Burst::CardRead { .. }) => Kind::CardRead,
        Call::Card(Burst::CardWrite { .. }) => Kind::CardWrite,
    }
}

// Whether a burst succeeded, or the number that it was refused with; nothing for a call of the processor.
fn burst_result(step: &Step) -> Option<Result<(), u8>> {
    match step.answer? {
        CallAnswer::CardRead(answer) => Some(answer.map_err(|refusal| refusal.number())),
        CallAnswer::CardWrite(answer) => {
            Some(answer.map(|_| ()).map_err(|refusal| refusal.number()))
        }
        _ => None,
    }
}

// The bytes that a step stored into a hidden page, if it did.
fn hidden_store(step: &Step) -> Option<[u8; 32]> {
    match (&step.call, step.answer?) {
        (Call::Processor(Request::Store { address, bytes }), CallAnswer::Store(Ok(())))
            if is_hidden(*address) => { Some(*bytes) }
        _ => None,
    }
}

// The calls of both sides, after they were performed.
#[derive(Clone, Copy)]
pub struct Account<'a> {
    pub left: &'a [Step],
    pub right: &'a [Step],
}

impl Account<'_> {
    fn calls(&self, kind: Kind) -> usize {
        self.left
            .iter()
            .filter(|step| kind_of(&step.call) == kind)
            .count()
    }

    fn bursts(&self, came_to: Result<(), u8>) -> usize {
        self.left
            .iter()
            .filter(|step| burst_result(step) == Some(came_to))
            .count()
    }

    fn differing_stores(&self) -> usize {
        self.left
            .iter()
            .zip(self.right.iter())
            .filter(|(left, right)| hidden_store(left) != hidden_store(right))
            .count()
    }

    fn differing_answers(&self) -> usize {
        self.left
            .iter()
            .zip(self.right.iter())
            .filter(|(left, right)| left.answer != right.answer)
            .count()
    }
}

impl fmt::Display for Account<'_> {
    fn fmt<W: fmt::Write>(&self, f: &mut fmt::Formatter<W>) -> fmt::Result {
        writeln!(f, "calls on each bridge: {}", self.left.len())?;
        for kind in KINDS {
            writeln!(f, "  {kind}: {}", self.calls(kind))?;
        }
        writeln!(f, "bursts that succeeded: {}", self.bursts(Ok(())))?;
        for number in 1..=9 {
            writeln!(f, "  refused with {number}: {}", self.bursts(Err(number)))?;
        }
        writeln!(
            f,
            "stores of different bytes into hidden pages: {}",
            self.differing_stores()
        )?;
        writeln!(
            f,
            "answers that differ, each to a load of a hidden page: {}",
            self.differing_answers()
        )
    }
}
