// What stops a piece of a burst. The fault of the memory is kept whole in that of the walk, and this in the burst's.
ghost use Rattle.std.specs.Prelude.{◌≡◌};
ghost use Rattle.bridge.specs.Faults.{fault_line, fault_number, walk_line, walk_number};
ghost use Rattle.bridge.specs.declared.faults.BurstFault.TheVariants.{Target, Walk};
ghost use Rattle.bridge.specs.declared.faults.WalkFault.TheVariants.{Memory};

use memory::MemoryFault;

// Why the walk through a table finds no page: the memory refuses the table's line, or the entry is not valid.
#[derive(Clone, Copy, Debug, PartialEq, Eq)]
pub enum WalkFault {
    Memory(MemoryFault),
    NotValid(u64),
}

// Why a piece of a burst is not served: its walk finds no page, or the memory refuses the target's line.
#[derive(Clone, Copy, Debug, PartialEq, Eq)]
pub enum BurstFault {
    Walk(WalkFault),
    Target(MemoryFault),
}

impl From<MemoryFault> for WalkFault {
    ghost from_gives = { λ fault r. r ≡ Memory fault };

    fn from(fault: MemoryFault) -> WalkFault {
        WalkFault::Memory(fault)
    }
}

impl From<WalkFault> for BurstFault {
    ghost from_gives = { λ fault r. r ≡ Walk fault };

    fn from(fault: WalkFault) -> BurstFault {
        BurstFault::Walk(fault)
    }
}

impl From<MemoryFault> for BurstFault {
    ghost from_gives = { λ fault r. r ≡ Target fault };

    fn from(fault: MemoryFault) -> BurstFault {
        BurstFault::Target(fault)
    }
}

impl WalkFault {
    fn number(&self) -> u8
        ensures { result ≡ walk_number self.now }
    {
        match self {
            WalkFault::NotValid(_) => 5,
            WalkFault::Memory(MemoryFault::Absent(_)) => 6,
            WalkFault::Memory(MemoryFault::Spoiled(_)) => 7,
        }
    }

    // The line of the table.
    fn line(&self) -> u64
        ensures { result ≡ walk_line self.now }
    {
        match self {
            WalkFault::NotValid(line) => *line,
            WalkFault::Memory(fault) => fault.line(),
        }
    }
}

impl BurstFault {
    // 5 for an entry that is not valid, 6 and 7 for a table's line that is absent or spoiled, 8 and 9 for such a target.
    pub fn number(&self) -> u8
        ensures { result ≡ fault_number self.now }
    {
        match self {
            BurstFault::Walk(fault) => fault.number(),
            BurstFault::Target(MemoryFault::Absent(_)) => 8,
            BurstFault::Target(MemoryFault::Spoiled(_)) => 9,
        }
    }

    // The line of the table for 5 to 7, of the target for 8 and 9.
    pub fn line(&self) -> u64
        ensures { result ≡ fault_line self.now }
    {
        match self {
            BurstFault::Walk(fault) => fault.line(),
            BurstFault::Target(fault) => fault.line(),
        }
    }
}
