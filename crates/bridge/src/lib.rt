// The bridge between PCI cards and memory, over any kind of memory: registers, windows, look-aside rows, fault log.
#![tactic(auto)]

pub mod bursts;
pub mod calls;
pub mod decode;
mod enables;
pub mod faults;
pub mod line;
pub mod log;
pub mod look_aside;
pub mod mark;
pub mod processor;
mod reads;
pub mod registers;
mod walk;
mod writes;

ghost use Rattle.std.specs.Prelude.{◌≡◌};
ghost use Rattle.memory.specs.Content.{Lawful, Lines};
ghost use Rattle.bridge.specs.Isolation.{IsolatedRuns};
ghost use Rattle.bridge.specs.State.{new_state, state_of};

use crate::log::FaultLog;
use crate::look_aside::LookAside;
use crate::registers::Registers;
use memory::Memory;

// All that the bridge holds, with the memory that it stands over.
#[derive(Drop)]
pub struct Bridge<M: Memory> {
    registers: Registers,
    look_aside: LookAside,
    log: FaultLog,
    memory: M,
}

impl<M: Memory> Bridge<M> {
    // A new bridge over a memory. Whatever is asked of it, the cards cannot tell it from a new bridge over any other memory
    // that differs in hidden pages alone, nor alter or open a hidden page, as the first and as the second of the two.
    pub fn new(memory: M) -> Bridge<M>
        ensures memory { result.memory ≡ memory }
        ensures starts { state_of M.Memory.content result ≡ new_state (M.Memory.content memory) }
        ensures isolated { (other : Lines) → Lawful other → IsolatedRuns (state_of M.Memory.content result) (new_state other) }
        ensures beside { (other : Lines) → Lawful other → IsolatedRuns (new_state other) (state_of M.Memory.content result) }
    {
        Bridge {
            registers: Registers::zero(),
            look_aside: LookAside::zero(),
            log: FaultLog::empty(),
            memory,
        }
    }
}

// Two new bridges over two memories, alike in kind or not: what holds of each by `new` holds of the two together.
pub fn new_pair<L: Memory, R: Memory>(left: L, right: R) -> (Bridge<L>, Bridge<R>)
    ensures memories { (result.0.memory ≡ left) × (result.1.memory ≡ right) }
    ensures left { state_of L.Memory.content result.0 ≡ new_state (L.Memory.content left) }
    ensures right { state_of R.Memory.content result.1 ≡ new_state (R.Memory.content right) }
    ensures isolated { IsolatedRuns (state_of L.Memory.content result.0) (state_of R.Memory.content result.1) }
{
    (Bridge::new(left), Bridge::new(right))
}
