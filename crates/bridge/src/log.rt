// The log of faults: the first one, and whether others came after it.
ghost use Rattle.std.specs.Prelude.{◌≡◌, [], Some};
ghost use Rattle.memory.specs.Answers.{success};
ghost use Rattle.bridge.specs.Calls.{log_clear, log_read, performed, processor};
ghost use Rattle.bridge.specs.Log.{empty_log, log_served, logged, reading_values};
ghost use Rattle.bridge.specs.State.{state_of};
ghost use Rattle.bridge.specs.Words.{direction_text};

use crate::Bridge;
use crate::faults::BurstFault;
use memory::Memory;
use std::fmt;

// What a card asked for.
#[derive(Clone, Copy, Debug, PartialEq, Eq)]
pub enum Direction {
    Read,
    Write,
}

impl fmt::Display for Direction {
    ghost output = { λ direction. Some (direction_text direction) };

    fn fmt<W: fmt::Write>(&self, f: &mut fmt::Formatter<W>) -> fmt::Result {
        f.write_str(match self {
            Direction::Read => "read",
            Direction::Write => "write",
        })
    }
}

// A fault, with what the card asked for and the PCI address of the burst's first longword in the line.
#[derive(Clone, Copy, Debug, PartialEq, Eq)]
pub struct FaultRecord {
    pub fault: BurstFault,
    pub direction: Direction,
    pub pci: u32,
}

// What a filled log says: the first fault since it was cleared, and whether others came after it. The two are always there
// together.
#[derive(Clone, Copy, Debug, PartialEq, Eq)]
pub struct LogReading {
    pub first: FaultRecord,
    pub missed: bool,
}

// Filled or empty.
#[derive(Clone, Copy)]
pub struct FaultLog {
    reading: Option<LogReading>,
}

impl FaultLog {
    // The log of a new bridge, and of one whose log was cleared.
    pub(crate) fn empty() -> FaultLog
        ensures { result ≡ empty_log }
    {
        FaultLog { reading: None }
    }

    // Takes a fault where the log is empty; a filled log keeps its first, and says that it missed others.
    fn note(&mut self, fault: FaultRecord)
        ensures { self.new ≡ logged self.old fault }
    {
        let missed = self.reading.is_some();
        let first = self.reading.map_or(fault, |reading| reading.first);
        self.reading = Some(LogReading { first, missed });
    }

    // Takes the fault of a piece, where it met one.
    pub(crate) fn note_served(
        &mut self,
        direction: Direction,
        pci: u32,
        served: Result<(), BurstFault>,
    )
        ensures { self.new ≡ log_served self.old direction pci served }
    {
        if let Err(fault) = served {
            self.note(FaultRecord {
                fault,
                direction,
                pci,
            });
        }
    }
}

impl<M: Memory> Bridge<M> {
    // What the log says, or nothing where it is empty.
    pub fn log_read(&self) -> Option<LogReading>
        ensures { success (reading_values result) ≡ (performed (state_of M.Memory.content self.now) (processor log_read)).answer }
    {
        self.log.reading
    }

    // Empties the log.
    pub fn log_clear(&mut self)
        ensures answer { success [] ≡ (performed (state_of M.Memory.content self.old) (processor log_clear)).answer }
        ensures after { state_of M.Memory.content self.new ≡ (performed (state_of M.Memory.content self.old) (processor log_clear)).state }
    {
        self.log = FaultLog::empty();
    }
}
