// A memory whose lines lie in one run of bytes, where a layout places them.
ghost use Rattle.std.specs.Prelude.{◌≡◌, ◌*◌, ◌/◌, ◌^◌, ◌<◌, ◌≤◌, length, replicate, IfOk, IfSome, vec_len};
ghost use Rattle.memory.specs.Layouts.{Apart, LiesInRun, PlacedBelow, Places, inside, laid_out};
ghost use Rattle.memory.specs.Longwords.{buffer_filled, longwords_on};
ghost use Rattle.std.proofs.Common.{arith};

use crate::line::{copy_longwords, fetch, put};
use crate::{Memory, MemoryFault};
use std::alloc::{AllocError, Global};

// A memory has the lines below this number.
pub(crate) const LINES: u64 = 0xC000000;

// Lines one behind another: where the first begins, and where the last ends.
#[derive(Clone, Copy)]
pub struct Run {
    pub at: usize,
    pub end: usize,
}

// Where the lines lie: no two share a byte, and lines from C000000h up lie nowhere.
pub trait Layout {
    ghost place: { Self → Places };

    // Where a line begins, if it lies anywhere, with lines that follow it there.
    fn run_of(&self, line: u64) -> Option<Run>
        ensures { LiesInRun (place self.now) line result };

    ghost apart: { (l : Self) → Apart (place l) };

    ghost below: { (l : Self) → PlacedBelow (place l) };
}

// Bytes under a layout. A line that does not lie whole within them is absent, and none is ever spoiled.
#[derive(Drop)]
pub struct Laid<L> {
    layout: L,
    bytes: Vec<u8>,
    // The bytes of whole lines come first: a line that begins among them is there.
    whole: usize,
    ghost whole_lines: { whole ≡ vec_len bytes / 32 * 32 },
}

impl<L: Layout> Laid<L> {
    // Bytes under a layout, as they are.
    pub(crate) fn new(layout: L, bytes: Vec<u8>) -> Laid<L>
        ensures { (result.layout ≡ layout) × (result.bytes ≡ bytes) }
    {
        let whole = bytes.len() / 32 * 32;
        Laid {
            layout,
            bytes,
            whole,
        }
    }

    // Bytes that are all 0, under a layout.
    pub(crate) fn over_zeros(heap: Global, layout: L, n: usize) -> Result<Laid<L>, AllocError>
    where
        L: Drop,
        ensures { IfOk result (λ m. (m.layout ≡ layout) × (vec_len m.bytes ≡ n) × (m.bytes.items ≡ replicate n 0)) }
    {
        let bytes = vec![in heap; 0; n]?;
        Ok(Laid::new(layout, bytes))
    }

    #[inline(always)]
    fn offset_of(&self, line: u64) -> Option<usize>
        ensures { result ≡ inside (vec_len self.now.bytes) (L.Layout.place self.now.layout line) }
    {
        let at = self.layout.run_of(line)?.at;
        (at < self.whole).then_some(at)
    }

    // Where a line begins, if it is there, with lines that are there behind it.
    #[inline(always)]
    fn run_within(&self, line: u64) -> Option<Run>
        ensures run { LiesInRun (λ k. inside (vec_len self.now.bytes) (L.Layout.place self.now.layout k)) line result }
        ensures within { IfSome result (λ run. run.end ≤ vec_len self.now.bytes) }
    {
        let run = self.layout.run_of(line)?;
        if run.at >= self.whole {
            return None;
        }
        Some(Run {
            at: run.at,
            end: run.end.min(self.whole),
        })
    }

    // Fills the place with longwords from the front of a line on, as far as their lines are there, and says how many.
    #[cold]
    #[inline(never)]
    fn read_behind(&self, first: u64, place: &mut [u32]) -> usize
        requires { first < 2 ^ 62 }
        ensures count { result ≡ length (longwords_on (length place.old) (8 * first) (laid_out (L.Layout.place self.now.layout) (vec_len self.now.bytes) self.now.bytes.items)) }
        ensures place { place.new ≡ buffer_filled (longwords_on (length place.old) (8 * first) (laid_out (L.Layout.place self.now.layout) (vec_len self.now.bytes) self.now.bytes.items)) place.old }
    {
        let mut moved = 0;
        let mut line = first;
        while moved < place.len() {
            let Some(run) = self.run_within(line) else {
                break;
            };
            moved += copy_longwords(&self.bytes, run.at, run.end, &mut place[moved..]);
            line += ((run.end - run.at) / 32) as u64;
        }
        moved
    }
}

impl<L: Layout> Memory for Laid<L> {
    ghost use Rattle.memory.specs.Layers.{lines_laid};
    ghost use Rattle.memory.specs.LinesAt.{laid_out_beyond, laid_out_whole};

    ghost content = { lines_laid L.Layout.place };

    ghost beyond = { λ m line h. laid_out_beyond _ _ _ (L.Layout.below m.layout line h) };

    ghost whole = { λ m. laid_out_whole _ m.bytes.len m.bytes.items (Prim.omega arith) };

    fn present(&self, line: u64) -> bool {
        self.offset_of(line).is_some()
    }

    #[inline(always)]
    fn read(&self, line: u64, place: &mut [u8; 32]) -> Result<(), MemoryFault> {
        let at = self.offset_of(line).ok_or(MemoryFault::Absent(line))?;
        fetch(&self.bytes, at, place);
        Ok(())
    }

    // Lines one behind another are read at once, and mostly that is all.
    #[inline(always)]
    fn read_longwords(&self, first: u64, place: &mut [u32]) -> Result<usize, MemoryFault> {
        let line = first / 8;
        let run = self.run_within(line).ok_or(MemoryFault::Absent(line))?;
        let moved = copy_longwords(
            &self.bytes,
            run.at + 4 * (first % 8) as usize,
            run.end,
            place,
        );
        if moved == place.len() {
            return Ok(moved);
        }
        let behind = line + ((run.end - run.at) / 32) as u64;
        Ok(moved + self.read_behind(behind, &mut place[moved..]))
    }

    fn write(&mut self, line: u64, bytes: &[u8; 32], mask: u32) -> Result<(), MemoryFault> {
        let at = self.offset_of(line).ok_or(MemoryFault::Absent(line))?;
        put(&mut self.bytes, at, bytes, mask);
        Ok(())
    }
}
