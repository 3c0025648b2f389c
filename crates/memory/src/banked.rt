// Banks laid one behind the other in one run of bytes.
ghost use Rattle.std.specs.Prelude.{◌≡◌, ℕ, ◌^◌, ◌<◌, List, take, replicate, IfOk};
ghost use Rattle.memory.specs.Banks.{ExactBanks, bank_places, banked, total};
ghost use Rattle.memory.specs.Layers.{banks_of, lines_laid};
ghost use Rattle.memory.specs.BankRules.{admitted};
ghost use Rattle.memory.specs.BankPlaces.{places_apart};
ghost use Rattle.std.proofs.Common.{rules, arith};

use crate::bank_list::BankList;
use crate::layout::{LINES, Laid, Layout, Run};
use std::alloc::{AllocError, Global};

impl Layout for BankList {
    ghost place = { λ l. bank_places (banks_of l) };

    ghost apart = { λ l. places_apart (take l.count l.banks) (admitted (take l.count l.banks) l.room l.faultless).sound };

    ghost below = { Prim.search rules };

    fn run_of(&self, line: u64) -> Option<Run> {
        if line >= LINES {
            return None;
        }
        let address = line * 32;
        let i = self.find(address)?;
        let bank = self.as_slice()[i];
        let begin = self.start(i);
        Some(Run {
            at: begin + (address - bank.base) as usize,
            end: begin + bank.size as usize,
        })
    }
}

// Bytes with the banks of a list laid one behind the other: exactly the addresses of the banks are present.
pub type Banked = Laid<BankList>;

impl Banked {
    // The banks of a list, over as many zero bytes as it was made for.
    pub fn zeros(heap: Global, list: BankList) -> Result<Banked, AllocError>
        ensures { IfOk result (λ m. lines_laid (λ l. bank_places (banks_of l)) m ≡ banked (banks_of list) list.room (replicate list.room 0)) }
    {
        Laid::over_zeros(heap, list, list.room())
    }
}

impl BankList {
    // Whatever the bytes hold, exactly the addresses of the banks are present, and none is in two banks.
    pub fn holds_exactly(&self)
        ensures { (bytes : List ℕ) → ExactBanks (banks_of self.now) (banked (banks_of self.now) self.now.room bytes) }
    {}
}
