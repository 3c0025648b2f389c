// The 32 bytes of one line inside a run of bytes, and its longwords.
ghost use Rattle.std.specs.Prelude.{◌≡◌, ℕ, ◌+◌, ◌-◌, ◌*◌, ◌/◌, ◌<◌, ◌≤◌, cond, length, min, take, drop, slice_index};
ghost use borrow.Rule.Slice.PartMut.{put_mid};
ghost use Rattle.memory.specs.Content.{bit, merged};
ghost use Rattle.memory.specs.Longwords.{buffer_filled, longword_at, longwords};

// Puts the bytes whose mask bit is set into four bytes of a line, from `first` on. Each byte is chosen without a branch, since the
// bits of a mask are hard to foretell.
fn merge_longword(part: &mut [u8], first: usize, new: &[u8; 32], mask: u32)
    requires { (length part.old ≡ 4) × (first + 4 ≤ 32) }
    ensures long { length part.new ≡ 4 }
    ensures merged { (i : ℕ) → i < 4 → slice_index part.new i ≡ cond (bit mask (first + i)) (slice_index new.now (first + i)) (slice_index part.old i) }
{
    if (mask >> first) % 16 != 0 {
        for (i, byte) in part.iter_mut().enumerate() {
            *byte = if (mask >> (first + i)) & 1 == 1 {
                new[first + i]
            } else {
                *byte
            };
        }
    }
}

// Puts the bytes whose mask bit is set into a line. It is a slice, since a part lent as an array is not followed back.
fn merge(line: &mut [u8], new: &[u8; 32], mask: u32)
    requires { length line.old ≡ 32 }
    ensures { line.new ≡ merged mask line.old new.now }
{
    if mask == u32::MAX {
        line.copy_from_slice(new);
    } else {
        for k in 0..8 {
            merge_longword(&mut line[4 * k..4 * k + 4], 4 * k, new, mask);
        }
    }
}

// The longword at an offset.
fn longword(bytes: &[u8], offset: usize) -> u32
    requires { offset + 4 ≤ length bytes.now }
    ensures { result ≡ longword_at bytes.now offset }
{
    u32::from_le_bytes(bytes[offset..offset + 4].try_into().unwrap())
}

// Fills the place with longwords from an offset of some bytes on. Many bursts have one longword: then the compiler knows how much is
// copied.
fn take_longwords(bytes: &[u8], offset: usize, place: &mut [u32])
    requires { offset + 4 * length place.old ≤ length bytes.now }
    ensures { place.new ≡ longwords (length place.old) offset bytes.now }
{
    if place.len() == 1 {
        place[0] = longword(bytes, offset);
    } else {
        for (k, word) in place.iter_mut().enumerate() {
            *word = longword(bytes, offset + 4 * k);
        }
    }
}

// Fills the place with the longwords between two offsets of some bytes, as many as it has room for, and says how many.
#[inline(always)]
pub(crate) fn copy_longwords(bytes: &[u8], from: usize, to: usize, place: &mut [u32]) -> usize
    requires { (from ≤ to) × (to ≤ length bytes.now) }
    ensures count { result ≡ min ((to - from) / 4) (length place.old) }
    ensures place { place.new ≡ buffer_filled (longwords result from bytes.now) place.old }
{
    let count = ((to - from) / 4).min(place.len());
    take_longwords(bytes, from, &mut place[..count]);
    count
}

// Copies the line that begins at `at` into a place.
#[inline(always)]
pub(crate) fn fetch(bytes: &[u8], at: usize, place: &mut [u8; 32])
    requires { at + 32 ≤ length bytes.now }
    ensures { place.new ≡ take 32 (drop at bytes.now) }
{
    *place = bytes[at..at + 32].try_into().unwrap();
}

// Writes into the line that begins at `at`, under a mask.
pub(crate) fn put(bytes: &mut [u8], at: usize, new: &[u8; 32], mask: u32)
    requires { at + 32 ≤ length bytes.old }
    ensures { bytes.new ≡ put_mid at 32 bytes.old (merged mask (take 32 (drop at bytes.old)) new.now) }
{
    merge(&mut bytes[at..at + 32], new, mask);
}
