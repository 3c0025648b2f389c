// A memory whose lines begin at a line of its own: a layer over any memory, and an example of a new kind of memory.
#![tactic(auto)]

ghost use Rattle.std.specs.Prelude.{◌≡◌};
ghost use Rattle.shifted_memory.specs.Shifted.{fault_above, line_below, lines_shifted, shifted};
ghost use Rattle.std.proofs.Common.{rules};

use memory::{Memory, MemoryFault};

// No memory has a line from this number up.
const LINES: u64 = 0xC00_0000;

// The lines of a memory, moved up: line k is line k - first of the memory below. Lines before `first` are absent.
#[derive(Drop)]
pub struct Shifted<M: Memory> {
    below: M,
    first: u64,
}

// The fault of the memory below, with the number that the line has here.
fn fault_above(line: u64, fault: MemoryFault) -> MemoryFault
    ensures { result ≡ fault_above line fault }
{
    match fault {
        MemoryFault::Absent(_) => MemoryFault::Absent(line),
        MemoryFault::Spoiled(_) => MemoryFault::Spoiled(line),
    }
}

impl<M: Memory> Shifted<M> {
    // The memory with its line 0 at line `first`.
    pub fn new(below: M, first: u64) -> Shifted<M>
        ensures { lines_shifted M.Memory.content result ≡ shifted first (M.Memory.content below) }
    {
        Shifted { below, first }
    }

    // The line below that a line stands for.
    fn line_below(&self, line: u64) -> Option<u64>
        ensures { result ≡ line_below self.now.first line }
    {
        if line >= LINES {
            return None;
        }
        line.checked_sub(self.first)
    }
}

impl<M: Memory> Memory for Shifted<M> {
    ghost content = { lines_shifted M.Memory.content };

    ghost beyond = { Prim.search rules };

    ghost whole = { Prim.search rules };

    fn present(&self, line: u64) -> bool {
        self.line_below(line).is_some_and(|k| self.below.present(k))
    }

    fn read(&self, line: u64, place: &mut [u8; 32]) -> Result<(), MemoryFault> {
        let k = self.line_below(line).ok_or(MemoryFault::Absent(line))?;
        self.below
            .read(k, place)
            .map_err(|fault| fault_above(line, fault))
    }

    fn write(&mut self, line: u64, bytes: &[u8; 32], mask: u32) -> Result<(), MemoryFault> {
        let k = self.line_below(line).ok_or(MemoryFault::Absent(line))?;
        self.below
            .write(k, bytes, mask)
            .map_err(|fault| fault_above(line, fault))
    }
}
