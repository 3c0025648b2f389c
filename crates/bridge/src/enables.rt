// The byte enables of a card write: a number for each longword, whose bits 3:0 are for its four bytes.
ghost use Rattle.std.specs.Prelude.{◌≡◌, ◌+◌, ◌*◌, ◌^◌, ◌<◌, ◌≤◌, false, length};
ghost use Rattle.bridge.specs.Bits.{bits};
ghost use Rattle.bridge.specs.Bursts.{wide_enable};
ghost use Rattle.bridge.specs.Longwords.{enable_bits, line_mask};

use crate::walk::Claimed;

// Whether a number has more than four bits. It looks at all of them and leaves at none, so that many are compared at once.
pub(crate) fn any_is_wide(numbers: &[u8]) -> bool
    ensures { result ≡ wide_enable numbers.now }
{
    let mut wide = false;
    for number in numbers {
        wide |= *number > 15;
    }
    wide
}

// Numbers that have four bits at most.
#[derive(Clone, Copy)]
pub(crate) struct ByteEnables<'a> {
    pub(crate) numbers: &'a [u8],
    ghost narrow: { wide_enable numbers.now ≡ false },
}

impl ByteEnables<'_> {
    // Four bits for each longword, those of the first lowest.
    fn bits(&self) -> u32
        requires { length self.now.numbers.now ≤ 8 }
        ensures value { result ≡ enable_bits self.now.numbers.now }
        ensures bound { result < 2 ^ (4 * length self.now.numbers.now) }
    {
        let mut bits = 0;
        let mut left = self.numbers.len();
        while left > 0 {
            left -= 1;
            bits = 16 * bits + u32::from(self.numbers[left]);
        }
        bits
    }

    // The mask of a line that has longwords from an offset on.
    pub(crate) fn line_mask(&self, offset: usize) -> u32
        requires { (offset < 32) × (4 * length self.now.numbers.now + offset ≤ 32) }
        ensures { result ≡ line_mask offset self.now.numbers.now }
    {
        self.bits() << offset
    }
}

// The longwords of a write that lie in one line, from a claimed address on, with their byte enables.
#[derive(Clone, Copy)]
pub(crate) struct WritePiece<'w, 'e> {
    pub(crate) claimed: Claimed,
    pub(crate) words: &'w [u32],
    pub(crate) enables: ByteEnables<'e>,
    ghost in_line: { bits 4 2 claimed.pci + length enables.numbers.now ≤ 8 },
    ghost paired: { length words.now ≡ length enables.numbers.now },
}
