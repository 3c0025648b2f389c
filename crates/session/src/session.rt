// A session: a bridge over zero bytes under marks, and what each form does to it.
ghost use Rattle.std.specs.Prelude.{◌≡◌, ◌/◌, min, [], ◌∷◌, map, length, replicate, IfErr, IfOk, OnErr};
ghost use Rattle.memory.specs.Layouts.{flat};
ghost use Rattle.memory.specs.Answers.{answered, no_values};
ghost use Rattle.bridge.specs.Calls.{load, store};
ghost use Rattle.bridge.specs.Performed.{AnswersRequest, answer_of, request_of};
ghost use Rattle.bridge.specs.Processor.{OfLine, access_cause};
ghost use Rattle.bridge.specs.State.{new_state};
ghost use Rattle.session.specs.declared.forms.Name.TheVariants as N;
ghost use Rattle.session.specs.declared.replies.FormRefusal.TheVariants as F;
ghost use Rattle.session.specs.declared.session.FormError.TheVariants.{NoMemory, Refused};
ghost use Rattle.session.specs.Forms.{asked, pair_of};
ghost use Rattle.session.specs.InputLines.{line_given};
ghost use Rattle.session.specs.Quadwords.{cpu_load, cpu_store};
ghost use Rattle.session.specs.Sessions.{Answered, Comes, Does, InputAnswered, reply_of, requested, session_state, unread};

use crate::forms::{Form, Pair, read_form};
use crate::input::{InputLine, TooLong};
use crate::lexer::LineError;
use crate::quadwords::put_quadword;
use crate::replies::{FormRefusal, Reply};
use bridge::Bridge;
use bridge::bursts::{ReadRefusal, WriteRefusal};
use bridge::calls::{Burst, Call, CallAnswer, Request};
use bridge::line::quadword;
use bridge::processor::AccessRefusal;
use memory::flat::Flat;
use memory::marks::Marks;
use std::alloc::{AllocError, Global};

// The bytes of the session's memory.
const BYTES: usize = 0x1_0000;

// The longwords of the largest card read.
const MOST_LONGWORDS: u64 = 64;

// What a form comes to where it needs no memory: the reply of its success, or why it is refused.
type FormResult = Result<Reply, FormRefusal>;

// Why a form has no success: it is refused, or there is no memory to do it with.
#[derive(Clone, Copy)]
enum FormError {
    Refused(FormRefusal),
    NoMemory,
}

impl From<FormRefusal> for FormError {
    ghost from_gives = { λ refusal e. e ≡ Refused refusal };

    fn from(refusal: FormRefusal) -> FormError {
        FormError::Refused(refusal)
    }
}

impl From<ReadRefusal> for FormError {
    ghost from_gives = { λ refusal e. e ≡ Refused (F.Read refusal) };

    fn from(refusal: ReadRefusal) -> FormError {
        FormError::Refused(refusal.into())
    }
}

impl From<WriteRefusal> for FormError {
    ghost from_gives = { λ refusal e. e ≡ Refused (F.Write refusal) };

    fn from(refusal: WriteRefusal) -> FormError {
        FormError::Refused(refusal.into())
    }
}

impl From<AllocError> for FormError {
    ghost from_gives = { λ _ e. e ≡ NoMemory };

    fn from(_: AllocError) -> FormError {
        FormError::NoMemory
    }
}

impl From<LineError> for FormError {
    ghost from_gives = { λ line e. e ≡ unread line };

    fn from(line: LineError) -> FormError {
        match line {
            LineError::Malformed => FormError::Refused(FormRefusal::Malformed),
            LineError::NoMemory => FormError::NoMemory,
        }
    }
}

// A bridge over zero bytes under marks, which changes by the forms that it is asked.
#[derive(Drop)]
pub struct Session {
    bridge: Bridge<Marks<Flat>>,
}

impl Session {
    // A session over n zero bytes, with no line marked.
    fn over(heap: Global, n: usize) -> Result<Session, AllocError>
        ensures { IfOk result (λ s. session_state s ≡ new_state (flat n (replicate n 0))) }
    {
        let memory = Marks::new(heap, Flat::zeros(heap, n)?)?;
        Ok(Session {
            bridge: Bridge::new(memory),
        })
    }

    // A session over 65,536 zero bytes, with no line marked.
    pub fn new(heap: Global) -> Result<Session, AllocError>
        ensures { IfOk result (λ s. session_state s ≡ new_state (flat 0x1_0000 (replicate 0x1_0000 0))) }
    {
        Session::over(heap, BYTES)
    }

    // Asks the bridge what the processor asks. Each caller takes its own kind of answer, which is the kind that is promised.
    fn request(&mut self, request: Request) -> CallAnswer
        ensures answer { answer_of result ≡ (requested (session_state self.old) (request_of request)).answer }
        ensures kind { AnswersRequest request result }
        ensures after { session_state self.new ≡ (requested (session_state self.old) (request_of request)).state }
    {
        let mut call = Call::Processor(request);
        self.bridge.perform(&mut call)
    }

    // The line at an address.
    fn load_line(&mut self, address: u64) -> Result<[u8; 32], AccessRefusal>
        ensures answer { answered (λ bytes. bytes) access_cause result ≡ (requested (session_state self.old) (load address)).answer }
        ensures line { IfErr result (OfLine (address / 32)) }
        ensures after { session_state self.new ≡ session_state self.old }
    {
        let CallAnswer::Load(result) = self.request(Request::Load { address }) else {
            unreachable!()
        };
        result
    }

    // Stores a line at an address.
    fn store_line(&mut self, address: u64, bytes: [u8; 32]) -> Result<(), AccessRefusal>
        ensures answer { answered no_values access_cause result ≡ (requested (session_state self.old) (store address bytes)).answer }
        ensures line { IfErr result (OfLine (address / 32)) }
        ensures after { session_state self.new ≡ (requested (session_state self.old) (store address bytes)).state }
    {
        let CallAnswer::Store(result) = self.request(Request::Store { address, bytes }) else {
            unreachable!()
        };
        result
    }

    // The quadword at an address.
    fn load_quadword(&mut self, address: u64) -> Result<u64, AccessRefusal>
        ensures answer { answered (λ value. value ∷ []) access_cause result ≡ cpu_load (session_state self.old) address }
        ensures line { IfErr result (OfLine (address / 32)) }
        ensures after { session_state self.new ≡ session_state self.old }
    {
        if address % 8 != 0 {
            return Err(AccessRefusal::Address);
        }
        let line = self.load_line(address / 32 * 32)?;
        Ok(quadword(&line, address))
    }

    // Stores a quadword at an address, by way of its line.
    fn store_quadword(&mut self, address: u64, value: u64) -> Result<(), AccessRefusal>
        ensures answer { answered no_values access_cause result ≡ (cpu_store (session_state self.old) address value).answer }
        ensures line { IfErr result (OfLine (address / 32)) }
        ensures after { session_state self.new ≡ (cpu_store (session_state self.old) address value).state }
    {
        if address % 8 != 0 {
            return Err(AccessRefusal::Address);
        }
        let start = address / 32 * 32;
        let mut line = self.load_line(start)?;
        put_quadword(&mut line, (address % 32) as usize, value);
        self.store_line(start, line)
    }

    fn cpu_load(&mut self, address: u64) -> FormResult
        ensures { Does self.old (N.CpuLoad, address) (reply_of result) self.new }
    {
        Ok(Reply::Value(self.load_quadword(address)?))
    }

    fn cpu_store(&mut self, address: u64, value: u64) -> FormResult
        ensures { Does self.old (N.CpuStore, (address, value)) (reply_of result) self.new }
    {
        self.store_quadword(address, value)?;
        Ok(Reply::Done)
    }

    fn mark(&mut self, line: u64) -> FormResult
        ensures { Does self.old (N.Mark, line) (reply_of result) self.new }
    {
        self.bridge.mark(line)?;
        Ok(Reply::Done)
    }

    // Reads a register.
    fn reg_read(&mut self, register: u64) -> FormResult
        ensures { Does self.old (N.RegRead, register) (reply_of result) self.new }
    {
        let CallAnswer::RegisterRead(result) = self.request(Request::RegisterRead { n: register })
        else {
            unreachable!()
        };
        Ok(Reply::Value(u64::from(result?)))
    }

    // Writes a register.
    fn reg_write(&mut self, register: u64, value: u32) -> FormResult
        ensures { Does self.old (N.RegWrite, (register, value)) (reply_of result) self.new }
    {
        let request = Request::RegisterWrite { n: register, value };
        let CallAnswer::RegisterWrite(result) = self.request(request) else {
            unreachable!()
        };
        result?;
        Ok(Reply::Done)
    }

    // Decodes a processor address.
    fn pci(&mut self, address: u64) -> FormResult
        ensures { Does self.old (N.Pci, address) (reply_of result) self.new }
    {
        let CallAnswer::Decode(result) = self.request(Request::Decode { cpu: address }) else {
            unreachable!()
        };
        Ok(Reply::Decoded(result?))
    }

    // Reads the log.
    fn log(&mut self) -> Reply
        ensures { Does self.old (N.Log, tt) result self.new }
    {
        let CallAnswer::LogRead(reading) = self.request(Request::LogRead) else {
            unreachable!()
        };
        Reply::Log(reading)
    }

    // Empties the log.
    fn log_clear(&mut self) -> Reply
        ensures { Does self.old (N.LogClear, tt) result self.new }
    {
        self.request(Request::LogClear);
        Reply::Done
    }

    // Serves a card's read, into a buffer that the reply keeps.
    fn card_read(&mut self, heap: Global, pci: u32, count: u64) -> Result<Reply, FormError>
        ensures { Comes (Does self.old (N.CardRead, (pci, count))) self.old result self.new }
    {
        let buffer = vec![in heap; 0; count.min(MOST_LONGWORDS) as usize]?;
        let count = count as usize;
        let mut call = Call::Card(Burst::CardRead { pci, count, buffer });
        let CallAnswer::CardRead(result) = self.bridge.perform(&mut call) else {
            unreachable!()
        };
        result?;
        let Call::Card(burst) = call else {
            unreachable!()
        };
        let Burst::CardRead { buffer, .. } = burst else {
            unreachable!()
        };
        Ok(Reply::Longwords(buffer))
    }

    // Serves a card's write.
    fn card_write(&mut self, heap: Global, pci: u32, pairs: &[Pair]) -> Result<Reply, FormError>
        ensures { Comes (Does self.old (N.CardWrite, (pci, map pair_of pairs.now))) self.old result self.new }
    {
        let (words, enables) = split_pairs(heap, pairs)?;
        let mut call = Call::Card(Burst::CardWrite {
            pci,
            count: pairs.len(),
            words,
            enables,
        });
        let CallAnswer::CardWrite(result) = self.bridge.perform(&mut call) else {
            unreachable!()
        };
        Ok(Reply::Counts(result?))
    }

    // Does what a form asks for. All memory that is needed is had before the bridge is called.
    fn perform(&mut self, heap: Global, form: &Form) -> Result<Reply, FormError>
        ensures { Comes (Does self.old (asked form.now)) self.old result self.new }
    {
        match form {
            Form::CpuStore { address, value } => Ok(self.cpu_store(*address, *value)?),
            Form::CpuLoad { address } => Ok(self.cpu_load(*address)?),
            Form::Mark { line } => Ok(self.mark(*line)?),
            Form::RegRead { register } => Ok(self.reg_read(*register)?),
            Form::RegWrite { register, value } => Ok(self.reg_write(*register, *value)?),
            Form::Pci { address } => Ok(self.pci(*address)?),
            Form::Log => Ok(self.log()),
            Form::LogClear => Ok(self.log_clear()),
            Form::CardRead { pci, count } => self.card_read(heap, *pci, *count),
            Form::CardWrite { pci, pairs } => self.card_write(heap, *pci, pairs.as_slice()),
        }
    }

    // Does what a line asks for.
    fn perform_line(&mut self, heap: Global, line: &[u8]) -> Result<Reply, FormError>
        ensures { Comes (Answered self.old line.now) self.old result self.new }
    {
        let form = read_form(heap, line)?;
        self.perform(heap, &form)
    }

    // The reply to a line of the input: one that is too long spells no form.
    pub fn answer_input(&mut self, heap: Global, line: &InputLine) -> Result<Reply, AllocError>
        ensures answered { IfOk result (λ reply. InputAnswered self.old (line_given line.now) reply self.new) }
        ensures unchanged { OnErr result (self.new ≡ self.old) }
    {
        match line {
            Ok(bytes) => self.answer(heap, bytes.as_slice()),
            Err(TooLong) => Ok(Reply::Refused(FormRefusal::Malformed)),
        }
    }

    // The reply to a line. Where there is no memory for it, the session stays as it was.
    pub fn answer(&mut self, heap: Global, line: &[u8]) -> Result<Reply, AllocError>
        ensures answered { IfOk result (λ reply. Answered self.old line.now reply self.new) }
        ensures unchanged { OnErr result (self.new ≡ self.old) }
    {
        match self.perform_line(heap, line) {
            Ok(reply) => Ok(reply),
            Err(FormError::Refused(refusal)) => Ok(Reply::Refused(refusal)),
            Err(FormError::NoMemory) => Err(AllocError),
        }
    }
}

// The number of a pair as byte enables. Over 255 it is 255: a burst with a number over 15 is refused, whichever it is.
fn byte_enables(number: u64) -> u8
    ensures { result ≡ min number 255 }
{
    u8::try_from(number).unwrap_or(u8::MAX)
}

// The longwords of pairs, and their byte enables.
fn split_pairs(heap: Global, pairs: &[Pair]) -> Result<(Vec<u32>, Vec<u8>), AllocError>
    ensures words { IfOk result (λ v. v.0.items ≡ map (λ (p : Pair). p.longword) pairs.now) }
    ensures enables { IfOk result (λ v. v.1.items ≡ map (λ (p : Pair). min p.enables 255) pairs.now) }
{
    let words = pairs.iter().map(|pair| pair.longword).collect(heap)?;
    let enables = pairs
        .iter()
        .map(|pair| byte_enables(pair.enables))
        .collect(heap)?;
    Ok((words, enables))
}
