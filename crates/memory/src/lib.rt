// Memories by line of 32 bytes: what a memory means, the kinds of memory, and the search that every table of rows shares.
#![tactic(auto)]

pub mod bank_list;
pub mod banked;
pub mod banks;
pub mod flat;
pub mod layout;
mod line;
pub mod marks;
pub mod refusals;
pub mod rows;

ghost use Rattle.std.specs.Prelude.{◌≡◌, ℕ, length};
ghost use Rattle.memory.specs.Content.{Bounded, Lines, Whole, is_present, memory_line, read_answer, read_place, write_answer, written};
ghost use Rattle.memory.specs.Longwords.{LongwordsByTheRule, buffer_filled, longwords_answer, longwords_on};

use crate::line::copy_longwords;

// Why a memory refuses a line, with the line's number.
#[derive(Clone, Copy, Debug, PartialEq, Eq)]
pub enum MemoryFault {
    Absent(u64),
    Spoiled(u64),
}

impl MemoryFault {
    // The line that is refused.
    pub fn line(&self) -> u64
        ensures { result ≡ memory_line self.now }
    {
        match self {
            MemoryFault::Absent(line) | MemoryFault::Spoiled(line) => *line,
        }
    }
}

// A memory is what its lines hold: each is absent, spoiled, or good with 32 bytes. A new kind of memory gives `content`
// and shows the two laws and the contracts of the three calls that have no body here; whatever is proved of every memory then holds
// of it.
pub trait Memory {
    ghost content: { Self → Lines };

    // Whether a line is not absent.
    fn present(&self, line: u64) -> bool
        ensures { result ≡ is_present (content self.now line) };

    // Fills the place with a good line; refuses any other, and leaves the place.
    fn read(&self, line: u64, place: &mut [u8; 32]) -> Result<(), MemoryFault>
        ensures answer { result ≡ read_answer line (content self.now line) }
        ensures place { place.new ≡ read_place (content self.now line) place.old };

    // Fills the place with longwords, number `first` and those after it, as far as their lines are good, and says how many. Longword n
    // is longword n % 8 of line n / 8. Refuses a first line that is not good, and leaves the place. A memory that finds several
    // lines at once gives a quicker body.
    fn read_longwords(&self, first: u64, place: &mut [u32]) -> Result<usize, MemoryFault>
        ensures answer { result ≡ longwords_answer (length place.old) first (content self.now) }
        ensures place { place.new ≡ buffer_filled (longwords_on (length place.old) first (content self.now)) place.old }
    {
        let mut line = first / 8;
        let mut bytes = [0; 32];
        self.read(line, &mut bytes)?;
        let mut moved = copy_longwords(&bytes, 4 * (first % 8) as usize, 32, place);
        line += 1;
        while moved < place.len() && self.read(line, &mut bytes).is_ok() {
            moved += copy_longwords(&bytes, 0, 32, &mut place[moved..]);
            line += 1;
        }
        Ok(moved)
    }

    // Writes byte i of a line where bit i of the mask is set; refuses an absent line. No other line changes.
    fn write(&mut self, line: u64, bytes: &[u8; 32], mask: u32) -> Result<(), MemoryFault>
        ensures answer { result ≡ write_answer line (content self.old line) }
        ensures after { content self.new ≡ written line bytes.now mask (content self.old) };

    ghost beyond: { (m : Self) → Bounded (content m) };

    ghost whole: { (m : Self) → Whole (content m) };
}

// The longwords that are read of a memory are those that the rule asks for.
pub fn longwords_read_by_the_rule()
    ensures { LongwordsByTheRule }
{}
