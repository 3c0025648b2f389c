// The replies of a session, and how they are printed.
#![tactic(auto, using(crate::proofs::ReplyTexts::printed))]

ghost use Rattle.std.specs.Prelude.{◌≡◌, Some};
ghost use Rattle.std.specs.Fmt.{WritesOnOk};
ghost use Rattle.bridge.specs.Log.{reading_values};
ghost use Rattle.session.specs.Replies.{Labels, NoLeadingZero, ReadsBack, burst_labels, cause_text, form_cause, form_labels, log_text, read_labels, reply_text, returned_text, spaced_numbers, write_labels};
ghost use Rattle.session.specs.declared.replies.FormRefusal.TheVariants as F;

use bridge::bursts::{BurstRefusal, ReadEnd, ReadRefusal, WriteCounts, WriteEnd, WriteRefusal};
use bridge::decode::{Cycle, DecodeRefusal};
use bridge::log::{FaultRecord, LogReading};
use bridge::processor::AccessRefusal;
use bridge::registers::RegisterRefusal;
use memory::marks::MarkRefusal;
use memory::refusals::Refusal;
use std::fmt;

// Why a form is refused: its line spells none, or the bridge or the memory refuses what it asks for.
#[derive(Clone, Copy)]
pub enum FormRefusal {
    Malformed,
    Access(AccessRefusal),
    Mark(MarkRefusal),
    Register(RegisterRefusal),
    Decode(DecodeRefusal),
    Read(ReadRefusal),
    Write(WriteRefusal),
}

// What the session answers to a line.
#[derive(Drop)]
pub enum Reply {
    Done,
    Value(u64),
    Decoded(Cycle),
    Log(Option<LogReading>),
    Longwords(Vec<u32>),
    Counts(WriteCounts),
    Refused(FormRefusal),
}

impl From<AccessRefusal> for FormRefusal {
    ghost from_gives = { λ refusal r. r ≡ F.Access refusal };

    fn from(refusal: AccessRefusal) -> FormRefusal {
        FormRefusal::Access(refusal)
    }
}

impl From<MarkRefusal> for FormRefusal {
    ghost from_gives = { λ refusal r. r ≡ F.Mark refusal };

    fn from(refusal: MarkRefusal) -> FormRefusal {
        FormRefusal::Mark(refusal)
    }
}

impl From<RegisterRefusal> for FormRefusal {
    ghost from_gives = { λ refusal r. r ≡ F.Register refusal };

    fn from(refusal: RegisterRefusal) -> FormRefusal {
        FormRefusal::Register(refusal)
    }
}

impl From<DecodeRefusal> for FormRefusal {
    ghost from_gives = { λ refusal r. r ≡ F.Decode refusal };

    fn from(refusal: DecodeRefusal) -> FormRefusal {
        FormRefusal::Decode(refusal)
    }
}

impl From<ReadRefusal> for FormRefusal {
    ghost from_gives = { λ refusal r. r ≡ F.Read refusal };

    fn from(refusal: ReadRefusal) -> FormRefusal {
        FormRefusal::Read(refusal)
    }
}

impl From<WriteRefusal> for FormRefusal {
    ghost from_gives = { λ refusal r. r ≡ F.Write refusal };

    fn from(refusal: WriteRefusal) -> FormRefusal {
        FormRefusal::Write(refusal)
    }
}

impl Refusal for FormRefusal {
    ghost cause = { form_cause };

    fn number(&self) -> u8 {
        match self {
            FormRefusal::Malformed => 18,
            FormRefusal::Access(refusal) => refusal.number(),
            FormRefusal::Mark(refusal) => refusal.number(),
            FormRefusal::Register(refusal) => refusal.number(),
            FormRefusal::Decode(refusal) => refusal.number(),
            FormRefusal::Read(refusal) => refusal.number(),
            FormRefusal::Write(refusal) => refusal.number(),
        }
    }
}

// A refusal whose values are printed, each with its label.
trait Labelled: Refusal {
    ghost labels: { Self → Labels };

    // Writes what the refusal returns besides its number.
    fn write_returned<W: fmt::Write>(&self, f: &mut fmt::Formatter<W>) -> fmt::Result
        ensures { WritesOnOk W.write_str_gives f.old result (returned_text (labels self.now) (Self.cause self.now)) f.new };
}

impl Labelled for ReadEnd {
    ghost labels = { λ _. read_labels };

    fn write_returned<W: fmt::Write>(&self, f: &mut fmt::Formatter<W>) -> fmt::Result {
        match *self {
            ReadEnd::NoWindow { moved } => write!(f, " (moved {moved:x})"),
            ReadEnd::Fault { moved, pci, fault } => {
                let line = fault.line();
                write!(f, " (moved {moved:x}) (pci {pci:x}) (line {line:x})")
            }
        }
    }
}

impl Labelled for WriteEnd {
    ghost labels = { λ _. write_labels };

    fn write_returned<W: fmt::Write>(&self, f: &mut fmt::Formatter<W>) -> fmt::Result {
        let WriteCounts {
            taken,
            stored,
            dismissed,
        } = self.counts;
        write!(
            f,
            " (taken {taken:x}) (stored {stored:x}) (dismissed {dismissed:x})"
        )
    }
}

// A check that fails returns nothing but its number.
impl<E: Labelled> Labelled for BurstRefusal<E> {
    ghost labels = { burst_labels E.labels };

    fn write_returned<W: fmt::Write>(&self, f: &mut fmt::Formatter<W>) -> fmt::Result {
        match self {
            BurstRefusal::Ended(end) => end.write_returned(f),
            BurstRefusal::Bounds | BurstRefusal::Alignment | BurstRefusal::Unclaimed => Ok(()),
        }
    }
}

// Only the refusals of a card's burst return anything.
impl Labelled for FormRefusal {
    ghost labels = { form_labels };

    fn write_returned<W: fmt::Write>(&self, f: &mut fmt::Formatter<W>) -> fmt::Result {
        match self {
            FormRefusal::Read(refusal) => refusal.write_returned(f),
            FormRefusal::Write(refusal) => refusal.write_returned(f),
            FormRefusal::Malformed
            | FormRefusal::Access(_)
            | FormRefusal::Mark(_)
            | FormRefusal::Register(_)
            | FormRefusal::Decode(_) => Ok(()),
        }
    }
}

impl fmt::Display for FormRefusal {
    ghost output = { λ refusal. Some (cause_text (form_labels refusal) (form_cause refusal)) };

    fn fmt<W: fmt::Write>(&self, f: &mut fmt::Formatter<W>) -> fmt::Result {
        let number = self.number();
        write!(f, "(no {number:x}")?;
        self.write_returned(f)?;
        f.write_str(")")
    }
}

// A filled log: its first fault, and 1 where others were missed.
fn write_reading<W: fmt::Write>(reading: &LogReading, f: &mut fmt::Formatter<W>) -> fmt::Result
    ensures { WritesOnOk W.write_str_gives f.old result (log_text (reading_values (Some reading.now))) f.new }
{
    let FaultRecord {
        fault,
        direction,
        pci,
    } = reading.first;
    let (number, line) = (fault.number(), fault.line());
    let missed = u8::from(reading.missed);
    write!(
        f,
        "(log {number:x} {direction} (pci {pci:x}) (line {line:x}) (missed {missed:x}))"
    )
}

// Numbers, each behind a space.
fn write_longwords<W: fmt::Write>(words: &[u32], f: &mut fmt::Formatter<W>) -> fmt::Result
    ensures { WritesOnOk W.write_str_gives f.old result (spaced_numbers words.now) f.new }
{
    for &word in words {
        write!(f, " {word:x}")?;
    }
    Ok(())
}

impl fmt::Display for Reply {
    ghost output = { λ reply. Some (reply_text reply) };

    fn fmt<W: fmt::Write>(&self, f: &mut fmt::Formatter<W>) -> fmt::Result {
        match self {
            Reply::Done => f.write_str("(ok)"),
            &Reply::Value(n) => write!(f, "(ok {n:x})"),
            Reply::Decoded(cycle) => {
                // Copied: a number behind a reference has no bound in the proof.
                let Cycle { space, pci, lanes } = *cycle;
                write!(f, "(ok {space} {pci:x} {lanes:x})")
            }
            Reply::Log(None) => f.write_str("(log)"),
            Reply::Log(Some(reading)) => write_reading(reading, f),
            Reply::Longwords(words) => {
                f.write_str("(ok")?;
                write_longwords(words.as_slice(), f)?;
                f.write_str(")")
            }
            Reply::Counts(counts) => {
                let WriteCounts {
                    taken,
                    stored,
                    dismissed,
                } = *counts;
                write!(f, "(ok {taken:x} {stored:x} {dismissed:x})")
            }
            Reply::Refused(refusal) => refusal.fmt(f),
        }
    }
}

// A number that is printed is read as itself, and only 0 is printed with the digit 0 first.
pub fn reads_back()
    ensures back { ReadsBack }
    ensures short { NoLeadingZero }
{}
