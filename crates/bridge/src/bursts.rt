// What card bursts answer, and their checks.
ghost use Rattle.std.specs.Prelude.{◌≡◌, ◌+◌, ◌^◌, ◌<◌, if◌then◌else◌, nat_lt};
ghost use Rattle.bridge.specs.BurstAnswers.{burst_cause, read_end_cause, tallied, write_end_cause};
ghost use Rattle.bridge.specs.Bursts.{before_end, wrong_count};

use crate::faults::BurstFault;
use memory::refusals::Refusal;

// Why a burst is refused: it fails one of three checks (1 for counts, enables and the end, 2 for the low bits of the address,
// 3 for a first longword that no window holds), or something ended it.
#[derive(Clone, Copy, Debug, PartialEq, Eq)]
pub enum BurstRefusal<E> {
    Bounds,
    Alignment,
    Unclaimed,
    Ended(E),
}

// What ended a read, with the longwords that were moved before: no window holds the next one, or a fault at its PCI address.
#[derive(Clone, Copy, Debug, PartialEq, Eq)]
pub enum ReadEnd {
    NoWindow {
        moved: usize,
    },
    Fault {
        moved: usize,
        pci: u32,
        fault: BurstFault,
    },
}

// What a write did: longwords taken, which are those of all lines stored or dismissed, lines stored, lines dismissed.
#[derive(Clone, Copy, Debug, Default, PartialEq, Eq)]
pub struct WriteCounts {
    pub taken: usize,
    pub stored: usize,
    pub dismissed: usize,
}

// What ended a write, with what it did before: no window holds the next longword.
#[derive(Clone, Copy, Debug, PartialEq, Eq)]
pub struct WriteEnd {
    pub counts: WriteCounts,
}

// Why a read is refused.
pub type ReadRefusal = BurstRefusal<ReadEnd>;

// Why a write is refused. A fault dismisses its line and is no refusal.
pub type WriteRefusal = BurstRefusal<WriteEnd>;

impl Refusal for ReadEnd {
    ghost cause = { read_end_cause };

    fn number(&self) -> u8 {
        match self {
            ReadEnd::NoWindow { .. } => 4,
            ReadEnd::Fault { fault, .. } => fault.number(),
        }
    }
}

impl Refusal for WriteEnd {
    ghost cause = { write_end_cause };

    fn number(&self) -> u8 {
        4
    }
}

impl<E: Refusal> Refusal for BurstRefusal<E> {
    ghost cause = { burst_cause E.Refusal.cause };

    fn number(&self) -> u8 {
        match self {
            BurstRefusal::Bounds => 1,
            BurstRefusal::Alignment => 2,
            BurstRefusal::Unclaimed => 3,
            BurstRefusal::Ended(end) => end.number(),
        }
    }
}

// Whether a burst may not have this count: 0, over 64, over the longwords at hand, or past the end of the PCI addresses.
pub(crate) fn count_is_wrong(pci: u32, count: usize, words: &[u32]) -> bool
    ensures { result ≡ wrong_count pci count words.now }
{
    !(1..=64).contains(&count)
        || count > words.len()
        || u64::from(pci) + 4 * count as u64 > 0x1_0000_0000
}

// The longwords of a line, and of a page.
pub(crate) const LINE: usize = 8;

pub(crate) const PAGE: usize = 2048;

// How many of `left` longwords from a PCI address on lie before the next multiple of so many.
pub(crate) fn before_end(unit: usize, pci: u32, left: usize) -> usize
    requires { 0 < unit }
    ensures { result ≡ before_end unit pci left }
{
    left.min(unit - (pci / 4) as usize % unit)
}

// The refusal where no window holds a longword: the first one of a burst fails the third check, a later one ends it.
pub(crate) fn no_window<E: Copy>(first: bool, end: E) -> BurstRefusal<E>
    ensures { result ≡ (if first then BurstRefusal.Unclaimed else BurstRefusal.Ended end) }
{
    if first {
        BurstRefusal::Unclaimed
    } else {
        BurstRefusal::Ended(end)
    }
}

impl WriteCounts {
    // Whether longwords are left to take. A line that was dismissed does not end a write.
    pub(crate) fn takes_more(&self, count: usize) -> bool
        ensures { result ≡ nat_lt self.now.taken count }
    {
        self.taken < count
    }

    // Counts a line of so many longwords, as stored or as dismissed.
    pub(crate) fn add(&mut self, longwords: usize, stored: bool)
        requires { (self.old.taken + longwords < 2 ^ 64) × ((self.old.stored + 1 < 2 ^ 64) × (self.old.dismissed + 1 < 2 ^ 64)) }
        ensures { self.new ≡ tallied self.old longwords stored }
    {
        self.taken += longwords;
        if stored {
            self.stored += 1;
        } else {
            self.dismissed += 1;
        }
    }
}
