// A layer of marked lines over any memory.
ghost use Rattle.std.specs.Prelude.{◌≡◌, ℕ, ◌+◌, ◌/◌, ◌%◌, ◌^◌, ◌<◌, ◌≤◌, true, false, [], IfOk, get_or, vec_len, vec_capacity, ◌==◌};
ghost use Rattle.memory.specs.Answers.{answered, no_values};
ghost use Rattle.memory.specs.Content.{write_answer, written};
ghost use Rattle.memory.specs.Marked.{AllHinted, AllPresent, Distinct, NeverSpoiled, lines_marked, mark_answer, mark_answer_of_lines, mark_cause, marked, marks_written, no_hints, with_hint, with_mark, without};
ghost use Rattle.std.proofs.Common.{rules};

use crate::refusals::Refusal;
use crate::rows::{Row, find};
use crate::{Memory, MemoryFault};
use std::alloc::{AllocError, Global};

// At most this many lines are marked.
const MOST: usize = 32;

// The number of a marked line.
#[derive(Clone, Copy)]
pub struct Mark {
    line: u64,
}

impl Row for Mark {
    ghost answers = { λ m line. (m.line == line) };

    fn answers(&self, line: u64) -> bool {
        self.line == line
    }
}

// Why a line is not marked: it is absent, or 32 others are marked.
#[derive(Clone, Copy, Debug, PartialEq, Eq)]
pub enum MarkRefusal {
    Absent,
    Full,
}

impl Refusal for MarkRefusal {
    ghost cause = { mark_cause };

    fn number(&self) -> u8 {
        match self {
            MarkRefusal::Absent => 14,
            MarkRefusal::Full => 17,
        }
    }
}

// A memory with up to 32 marked lines, which are spoiled besides those that are spoiled below. The room for the marks is
// had when the layer is made.
#[derive(Drop)]
pub struct Marks<M: Memory> {
    below: M,
    marks: Vec<Mark>,
    // Whether one of eight lines may be marked, by bits 14:3 of a line's number: most lines are told unmarked without a search, and
    // eight at a time.
    hints: [bool; 4096],
    ghost room: { 32 ≤ vec_capacity marks },
    ghost few: { vec_len marks ≤ 32 },
    ghost apart: { Distinct marks.items },
    ghost there: { AllPresent marks.items (M.Memory.content below) },
    ghost hinted: { AllHinted marks.items hints },
}

impl<M: Memory> Marks<M> {
    ghost use Rattle.memory.specs.Layers.{lines_under, marks_of};

    // No line is marked yet, so each holds what it holds below.
    pub fn new(heap: Global, below: M) -> Result<Marks<M>, AllocError>
    where
        M: Drop,
        ensures unmarked { IfOk result (λ m. (marks_of m ≡ []) × (m.below ≡ below)) }
        ensures content { IfOk result (λ m. lines_under M.Memory.content m ≡ M.Memory.content below) }
        ensures hints { IfOk result (λ m. m.hints ≡ no_hints) }
    {
        let marks = Vec::with_capacity(heap, MOST)?;
        let hints = [false; 4096];
        Ok(Marks {
            below,
            marks,
            hints,
        })
    }

    // Whether a marked line may be among the eight of a line.
    fn may_be_marked(&self, line: u64) -> bool
        ensures hint { result ≡ get_or self.now.hints (line / 8 % 4096) false }
        ensures unmarked { result ≡ false → (k : ℕ) → k / 8 ≡ line / 8 → marked (marks_of self.now) k ≡ false }
    {
        self.hints[(line / 8 % 4096) as usize]
    }

    fn is_marked(&self, line: u64) -> bool
        ensures { result ≡ marked (marks_of self.now) line }
    {
        self.may_be_marked(line) && find(&self.marks, line).is_some()
    }

    // How many of some longwords lie in front of the first marked line, where that of the first one is not marked.
    fn unmarked_from(&self, first: u64, count: usize) -> usize
        requires unmarked { marked (marks_of self.now) (first / 8) ≡ false }
        requires narrow { count < 2 ^ 63 }
        ensures most { result ≤ count }
        ensures before { (n : ℕ) → n < result → marked (marks_of self.now) ((first + n) / 8) ≡ false }
        ensures next { result < count → marked (marks_of self.now) ((first + result) / 8) ≡ true }
    {
        let mut next = first / 8 + 1;
        let mut end = 8 - (first % 8) as usize;
        while end < count && !self.is_marked(next) {
            let lines = if self.may_be_marked(next) {
                1
            } else {
                8 - next % 8
            };
            next += lines;
            end += 8 * lines as usize;
        }
        end.min(count)
    }

    // Removes the mark of a line, if it has one.
    fn unmark(&mut self, line: u64)
        ensures below { self.new.below ≡ self.old.below }
        ensures marks { marks_of self.new ≡ without (marks_of self.old) line }
        ensures hints { self.new.hints ≡ self.old.hints }
    {
        if let Some(i) = find(&self.marks, line) {
            self.marks.remove(i);
        }
    }

    // Marks a line that is there. A marked line again adds nothing, and a 33rd is refused.
    pub fn mark(&mut self, line: u64) -> Result<(), MarkRefusal>
        ensures answer { answered no_values mark_cause result ≡ mark_answer (marks_of self.old) (M.Memory.content self.old.below) line }
        ensures by_lines { NeverSpoiled (M.Memory.content self.old.below) → answered no_values mark_cause result ≡ mark_answer_of_lines (lines_under M.Memory.content self.old) line }
        ensures below { self.new.below ≡ self.old.below }
        ensures marks { marks_of self.new ≡ with_mark (answered no_values mark_cause result) (marks_of self.old) line }
        ensures after { lines_under M.Memory.content self.new ≡ lines_marked (answered no_values mark_cause result) line (lines_under M.Memory.content self.old) }
        ensures hints { self.new.hints ≡ with_hint (answered no_values mark_cause result) line self.old.hints }
    {
        if !self.below.present(line) {
            return Err(MarkRefusal::Absent);
        }
        if self.is_marked(line) {
            return Ok(());
        }
        if self.marks.len() >= MOST {
            return Err(MarkRefusal::Full);
        }
        self.marks.push_reserved(Mark { line });
        self.hints[(line / 8 % 4096) as usize] = true;
        Ok(())
    }
}

impl<M: Memory> Memory for Marks<M> {
    ghost use Rattle.memory.specs.Layers.{lines_under, marks_of};

    ghost content = { lines_under M.Memory.content };

    ghost beyond = { Prim.search rules };

    ghost whole = { Prim.search rules };

    fn present(&self, line: u64) -> bool {
        self.below.present(line)
    }

    #[inline(always)]
    fn read(&self, line: u64, place: &mut [u8; 32]) -> Result<(), MemoryFault> {
        if self.is_marked(line) {
            return Err(MemoryFault::Spoiled(line));
        }
        self.below.read(line, place)
    }

    // The lines in front of the first marked one are read below at once.
    fn read_longwords(&self, first: u64, place: &mut [u32]) -> Result<usize, MemoryFault> {
        if self.is_marked(first / 8) {
            return Err(MemoryFault::Spoiled(first / 8));
        }
        let count = self.unmarked_from(first, place.len());
        self.below.read_longwords(first, &mut place[..count])
    }

    // The memory below gets the same write; a full one removes the line's mark.
    fn write(&mut self, line: u64, bytes: &[u8; 32], mask: u32) -> Result<(), MemoryFault>
        ensures answer { result ≡ write_answer line (lines_under M.Memory.content self.old line) }
        ensures after { lines_under M.Memory.content self.new ≡ written line bytes.now mask (lines_under M.Memory.content self.old) }
        ensures marks { marks_of self.new ≡ marks_written (marks_of self.old) (M.Memory.content self.old.below) line mask }
        ensures below { M.Memory.content self.new.below ≡ written line bytes.now mask (M.Memory.content self.old.below) }
        ensures hints { self.new.hints ≡ self.old.hints }
    {
        self.below.write(line, bytes, mask)?;
        if mask == u32::MAX {
            self.unmark(line);
        }
        Ok(())
    }
}
