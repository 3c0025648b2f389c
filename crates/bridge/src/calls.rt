// The nine calls as values, and runs of them.
ghost use Rattle.std.specs.Prelude.{◌≡◌, Some, IfSome};
ghost use Rattle.bridge.specs.Calls.{card, performed, processor};
ghost use Rattle.bridge.specs.Performed.{Answers, AnswersBurst, AnswersRequest, answer_of, burst_of, burst_with_buffer, call_of, request_of, with_buffer};
ghost use Rattle.bridge.specs.Isolation.{after};
ghost use Rattle.bridge.specs.Steps.{StepsPerformed, answer_kept, calls_of};
ghost use Rattle.bridge.specs.State.{state_of};

use crate::Bridge;
use crate::bursts::{ReadRefusal, WriteCounts, WriteRefusal};
use crate::decode::{Cycle, DecodeRefusal};
use crate::log::LogReading;
use crate::processor::AccessRefusal;
use crate::registers::RegisterRefusal;
use memory::Memory;

// What the processor asks.
#[derive(Clone, Copy, Debug, PartialEq, Eq)]
pub enum Request {
    RegisterRead { n: u64 },
    RegisterWrite { n: u64, value: u32 },
    Load { address: u64 },
    Store { address: u64, bytes: [u8; 32] },
    Decode { cpu: u64 },
    LogRead,
    LogClear,
}

// What a card asks. A read has its own buffer; a write has what its call is given, which may be shorter than the count, and is
// then refused.
#[derive(Drop)]
pub enum Burst {
    CardRead {
        pci: u32,
        count: usize,
        buffer: Vec<u32>,
    },
    CardWrite {
        pci: u32,
        count: usize,
        words: Vec<u32>,
        enables: Vec<u8>,
    },
}

// One of the nine calls, with all that it carries.
#[derive(Drop)]
pub enum Call {
    Processor(Request),
    Card(Burst),
}

// What a call answers.
#[derive(Clone, Copy, Debug, PartialEq, Eq)]
pub enum CallAnswer {
    RegisterRead(Result<u32, RegisterRefusal>),
    RegisterWrite(Result<(), RegisterRefusal>),
    Load(Result<[u8; 32], AccessRefusal>),
    Store(Result<(), AccessRefusal>),
    Decode(Result<Cycle, DecodeRefusal>),
    LogRead(Option<LogReading>),
    LogClear,
    CardRead(Result<(), ReadRefusal>),
    CardWrite(Result<WriteCounts, WriteRefusal>),
}

// A call of a run, and its answer once it was performed.
#[derive(Drop)]
pub struct Step {
    pub call: Call,
    pub answer: Option<CallAnswer>,
}

impl<M: Memory> Bridge<M> {
    // Answers the processor.
    fn answer_request(&mut self, request: &Request) -> CallAnswer
        ensures answer { answer_of result ≡ (performed (state_of M.Memory.content self.old) (processor (request_of request.now))).answer }
        ensures kind { AnswersRequest request.now result }
        ensures after { state_of M.Memory.content self.new ≡ (performed (state_of M.Memory.content self.old) (processor (request_of request.now))).state }
    {
        match request {
            Request::RegisterRead { n } => CallAnswer::RegisterRead(self.register_read(*n)),
            Request::RegisterWrite { n, value } => {
                CallAnswer::RegisterWrite(self.register_write(*n, *value))
            }
            Request::Load { address } => CallAnswer::Load(self.load(*address)),
            Request::Store { address, bytes } => CallAnswer::Store(self.store(*address, bytes)),
            Request::Decode { cpu } => CallAnswer::Decode(self.decode(*cpu)),
            Request::LogRead => CallAnswer::LogRead(self.log_read()),
            Request::LogClear => {
                self.log_clear();
                CallAnswer::LogClear
            }
        }
    }

    // Serves a card. All of a burst stays but the buffer of a read, which is filled.
    fn serve_burst(&mut self, burst: &mut Burst) -> CallAnswer
        ensures answer { answer_of result ≡ (performed (state_of M.Memory.content self.old) (card (burst_of burst.old))).answer }
        ensures kind { AnswersBurst burst.old result }
        ensures burst { burst_of burst.new ≡ burst_with_buffer (performed (state_of M.Memory.content self.old) (card (burst_of burst.old))).buffer (burst_of burst.old) }
        ensures after { state_of M.Memory.content self.new ≡ (performed (state_of M.Memory.content self.old) (card (burst_of burst.old))).state }
    {
        match burst {
            Burst::CardRead { pci, count, buffer } => {
                CallAnswer::CardRead(self.card_read(*pci, *count, buffer.as_mut_slice()))
            }
            Burst::CardWrite {
                pci,
                count,
                words,
                enables,
            } => CallAnswer::CardWrite(self.card_write(
                *pci,
                *count,
                words.as_slice(),
                enables.as_slice(),
            )),
        }
    }

    // Performs a call. All of it stays but the buffer of a card read, which is filled.
    pub fn perform(&mut self, call: &mut Call) -> CallAnswer
        ensures answer { answer_of result ≡ (performed (state_of M.Memory.content self.old) (call_of call.old)).answer }
        ensures kind { Answers call.old result }
        ensures call { call_of call.new ≡ with_buffer (performed (state_of M.Memory.content self.old) (call_of call.old)).buffer (call_of call.old) }
        ensures after { state_of M.Memory.content self.new ≡ (performed (state_of M.Memory.content self.old) (call_of call.old)).state }
    {
        match call {
            Call::Processor(request) => self.answer_request(request),
            Call::Card(burst) => self.serve_burst(burst),
        }
    }

    // Performs the call of a step, and keeps the answer beside it.
    fn perform_step(&mut self, step: &mut Step)
        ensures answer { answer_kept step.new.answer ≡ Some (performed (state_of M.Memory.content self.old) (call_of step.old.call)).answer }
        ensures kind { IfSome step.new.answer (Answers step.old.call) }
        ensures call { call_of step.new.call ≡ with_buffer (performed (state_of M.Memory.content self.old) (call_of step.old.call)).buffer (call_of step.old.call) }
        ensures after { state_of M.Memory.content self.new ≡ (performed (state_of M.Memory.content self.old) (call_of step.old.call)).state }
    {
        step.answer = Some(self.perform(&mut step.call));
    }

    // Performs the calls of some steps in order, and keeps each answer beside its call.
    pub fn run(&mut self, steps: &mut [Step])
        ensures steps { StepsPerformed (state_of M.Memory.content self.old) steps.old steps.new }
        ensures after { state_of M.Memory.content self.new ≡ after (state_of M.Memory.content self.old) (calls_of steps.old) }
    {
        for step in steps.iter_mut() {
            self.perform_step(step);
        }
    }
}
