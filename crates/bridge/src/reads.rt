// Card reads.
ghost use Rattle.std.specs.Prelude.{◌≡◌, ◌+◌, ◌*◌, ◌%◌, ◌^◌, ◌<◌, ◌≤◌, length};
ghost use Rattle.bridge.specs.BurstAnswers.{read_answered};
ghost use Rattle.bridge.specs.Bursts.{card_read, third_check};
ghost use Rattle.bridge.specs.Calls.{burst_outcome, card, performed, read_outcome};
ghost use Rattle.bridge.specs.Pieces.{OfTarget, ReadFrom};
ghost use Rattle.bridge.specs.State.{state_of, with_rows};
ghost use Rattle.bridge.specs.Translation.{located_claimed, reached};

use crate::Bridge;
use crate::bursts::{
    BurstRefusal, PAGE, ReadEnd, ReadRefusal, before_end, count_is_wrong, no_window,
};
use crate::faults::BurstFault;
use crate::log::Direction;
use crate::walk::Claimed;
use memory::Memory;

impl<M: Memory> Bridge<M> {
    // Reads longwords that lie in one PCI page, from an address on that a window claims, as far as their lines are good, and says how
    // many. A fault leaves them as they were.
    fn read_page(&mut self, claimed: Claimed, words: &mut [u32]) -> Result<usize, BurstFault>
        ensures read { ReadFrom (located_claimed (state_of M.Memory.content self.old) claimed.pci claimed.number claimed.mapped).place (M.Memory.content self.old.memory) words.old words.new result }
        ensures again { OfTarget (located_claimed (state_of M.Memory.content self.old) claimed.pci claimed.number claimed.mapped).place (λ address. located_claimed (state_of M.Memory.content self.new) claimed.pci claimed.number claimed.mapped ≡ reached self.new.look_aside address) }
        ensures low { OfTarget (located_claimed (state_of M.Memory.content self.old) claimed.pci claimed.number claimed.mapped).place (λ address. address % 32 ≡ claimed.pci % 32) }
        ensures after { state_of M.Memory.content self.new ≡ with_rows (located_claimed (state_of M.Memory.content self.old) claimed.pci claimed.number claimed.mapped).look_aside (state_of M.Memory.content self.old) }
    {
        let address = self.translate(claimed)?;
        Ok(self.memory.read_longwords(address / 4, words)?)
    }

    // Reads a burst page by page. It ends where no window holds the next longword, and at its first fault.
    fn read_burst(&mut self, pci: u32, count: usize, buffer: &mut [u32]) -> Result<(), ReadRefusal>
        requires aligned { pci % 4 ≡ 0 }
        requires some { 0 < count }
        requires few { count ≤ 64 }
        requires room { count ≤ length buffer.old }
        requires within { pci + 4 * count ≤ 2 ^ 32 }
        ensures { read_outcome (state_of M.Memory.content self.new) buffer.new result ≡ burst_outcome (state_of M.Memory.content self.old) (card_read pci count buffer.old) (third_check self.old.registers pci) }
    {
        let mut moved = 0;
        // Claim and translation stay the same in a page, so a turn takes all of it, up to a line that is not good: that one is left to
        // the next turn, as its first.
        while moved < count {
            let here = pci + 4 * moved as u32;
            // 3 or 4 leaves the loop here.
            let Some((number, mapped)) = self.registers.claim(here) else {
                return Err(no_window(moved == 0, ReadEnd::NoWindow { moved }));
            };
            let claimed = Claimed {
                number,
                mapped,
                pci: here,
            };
            let end = moved + before_end(PAGE, here, count - moved);
            let read = self.read_page(claimed, &mut buffer[moved..end]);
            self.log
                .note_served(Direction::Read, here, read.map(|_| ()));
            moved += read.map_err(|fault| {
                BurstRefusal::Ended(ReadEnd::Fault {
                    moved,
                    pci: here,
                    fault,
                })
            })?;
        }
        Ok(())
    }

    // A card's read of `count` longwords into the first places of a buffer. With 1, 2 or 3 nothing is read; with 4 to 9 the buffer has
    // what was read before, and the rest of it stays.
    pub fn card_read(
        &mut self,
        pci: u32,
        count: usize,
        buffer: &mut [u32],
    ) -> Result<(), ReadRefusal>
        ensures answer { read_answered result ≡ (performed (state_of M.Memory.content self.old) (card (card_read pci count buffer.old))).answer }
        ensures buffer { buffer.new ≡ (performed (state_of M.Memory.content self.old) (card (card_read pci count buffer.old))).buffer }
        ensures after { state_of M.Memory.content self.new ≡ (performed (state_of M.Memory.content self.old) (card (card_read pci count buffer.old))).state }
    {
        if count_is_wrong(pci, count, buffer) {
            return Err(BurstRefusal::Bounds);
        }
        if pci % 4 != 0 {
            return Err(BurstRefusal::Alignment);
        }
        self.read_burst(pci, count, buffer)
    }
}
