// Card writes.
ghost use Rattle.std.specs.Prelude.{◌≡◌, ◌+◌, ◌*◌, ◌%◌, ◌^◌, ◌<◌, ◌≤◌, false, length, take};
ghost use Rattle.bridge.specs.BurstAnswers.{write_answered};
ghost use Rattle.bridge.specs.Bursts.{card_write, third_check, wide_enable};
ghost use Rattle.bridge.specs.Calls.{burst_outcome, card, performed, write_outcome};
ghost use Rattle.bridge.specs.Longwords.{line_bytes};
ghost use Rattle.bridge.specs.Pieces.{after_piece, edited, outcome_by_write, outcome_claimed, piece_of};
ghost use Rattle.bridge.specs.State.{state_of, with_lines, with_rows};

use crate::Bridge;
use crate::bursts::{
    BurstRefusal, LINE, WriteCounts, WriteEnd, WriteRefusal, before_end, count_is_wrong, no_window,
};
use crate::enables::{ByteEnables, WritePiece, any_is_wide};
use crate::faults::BurstFault;
use crate::line::BLANK;
use crate::log::Direction;
use crate::walk::Claimed;
use memory::Memory;

// The longwords at their place in a line.
fn line_bytes(offset: usize, words: &[u32]) -> [u8; 32]
    requires { offset + 4 * length words.now ≤ 32 }
    ensures { result ≡ line_bytes offset words.now }
{
    let mut bytes = BLANK;
    for (k, word) in words.iter().enumerate() {
        let at = offset + 4 * k;
        bytes[at..at + 4].copy_from_slice(&word.to_le_bytes());
    }
    bytes
}

impl<M: Memory> Bridge<M> {
    // Writes longwords that lie in one line, at an address that a window claims.
    fn write_line(&mut self, piece: &WritePiece) -> Result<(), BurstFault>
        ensures outcome { outcome_by_write self.new.look_aside self.old.log (piece_of piece.now) (outcome_claimed (state_of M.Memory.content self.old) (piece_of piece.now) piece.now.claimed.number piece.now.claimed.mapped).edit result ≡ outcome_claimed (state_of M.Memory.content self.old) (piece_of piece.now) piece.now.claimed.number piece.now.claimed.mapped }
        ensures after { state_of M.Memory.content self.new ≡ with_lines (edited (outcome_claimed (state_of M.Memory.content self.old) (piece_of piece.now) piece.now.claimed.number piece.now.claimed.mapped).edit) (with_rows self.new.look_aside (state_of M.Memory.content self.old)) }
    {
        let address = self.translate(piece.claimed)?;
        let offset = (address % 32) as usize;
        let bytes = line_bytes(offset, piece.words);
        let mask = piece.enables.line_mask(offset);
        self.memory.write(address / 32, &bytes, mask)?;
        Ok(())
    }

    // Writes a piece of a burst, or dismisses it and logs its fault.
    fn write_piece(&mut self, piece: &WritePiece) -> Result<(), BurstFault>
        ensures outcome { outcome_by_write self.new.look_aside self.old.log (piece_of piece.now) (outcome_claimed (state_of M.Memory.content self.old) (piece_of piece.now) piece.now.claimed.number piece.now.claimed.mapped).edit result ≡ outcome_claimed (state_of M.Memory.content self.old) (piece_of piece.now) piece.now.claimed.number piece.now.claimed.mapped }
        ensures after { state_of M.Memory.content self.new ≡ after_piece (state_of M.Memory.content self.old) (outcome_claimed (state_of M.Memory.content self.old) (piece_of piece.now) piece.now.claimed.number piece.now.claimed.mapped) }
    {
        let served = self.write_line(piece);
        self.log
            .note_served(Direction::Write, piece.claimed.pci, served);
        served
    }

    // Writes a burst line by line. A fault dismisses its line alone; the burst ends where no window holds the next longword.
    fn write_burst(
        &mut self,
        pci: u32,
        count: usize,
        words: &[u32],
        enables: &[u8],
    ) -> Result<WriteCounts, WriteRefusal>
        requires aligned { pci % 4 ≡ 0 }
        requires some { 0 < count }
        requires few { count ≤ 64 }
        requires room { count ≤ length words.now }
        requires even { count ≤ length enables.now }
        requires within { pci + 4 * count ≤ 2 ^ 32 }
        requires narrow { wide_enable (take count enables.now) ≡ false }
        ensures { write_outcome (state_of M.Memory.content self.new) result ≡ burst_outcome (state_of M.Memory.content self.old) (card_write pci count words.now enables.now) (third_check self.old.registers pci) }
    {
        let mut counts = WriteCounts::default();
        // A turn takes the longwords of a line, of which there are one to eight.
        while counts.takes_more(count) {
            let first = counts.taken;
            let here = pci + 4 * first as u32;
            // 3 or 4 leaves the loop here.
            let Some((number, mapped)) = self.registers.claim(here) else {
                return Err(no_window(first == 0, WriteEnd { counts }));
            };
            let n = before_end(LINE, here, count - first);
            let claimed = Claimed {
                number,
                mapped,
                pci: here,
            };
            let enables = ByteEnables {
                numbers: &enables[first..first + n],
            };
            let piece = WritePiece {
                claimed,
                words: &words[first..first + n],
                enables,
            };
            let served = self.write_piece(&piece);
            counts.add(n, served.is_ok());
        }
        Ok(counts)
    }

    // A card's write of `count` longwords, each under its byte enables. With 1, 2 or 3 nothing is written; a faulty line is dismissed
    // alone, and where a window ends, with 4, the lines before it are written. The answer counts them.
    pub fn card_write(
        &mut self,
        pci: u32,
        count: usize,
        words: &[u32],
        enables: &[u8],
    ) -> Result<WriteCounts, WriteRefusal>
        ensures answer { write_answered result ≡ (performed (state_of M.Memory.content self.old) (card (card_write pci count words.now enables.now))).answer }
        ensures after { state_of M.Memory.content self.new ≡ (performed (state_of M.Memory.content self.old) (card (card_write pci count words.now enables.now))).state }
    {
        if count_is_wrong(pci, count, words) {
            return Err(BurstRefusal::Bounds);
        }
        if count > enables.len() || any_is_wide(&enables[..count]) {
            return Err(BurstRefusal::Bounds);
        }
        if pci % 4 != 0 {
            return Err(BurstRefusal::Alignment);
        }
        self.write_burst(pci, count, words, enables)
    }
}
