// Marking a line of a memory under marks, which is no call of the processor or of a card.
ghost use Rattle.std.specs.Prelude.{◌≡◌};
ghost use Rattle.bridge.specs.State.{state_of, with_lines};
ghost use Rattle.memory.specs.Answers.{answered, no_values};
ghost use Rattle.memory.specs.Layers.{lines_under, marks_of};
ghost use Rattle.memory.specs.Marked.{NeverSpoiled, lines_marked, mark_answer, mark_answer_of_lines, mark_cause, with_mark};

use crate::Bridge;
use memory::Memory;
use memory::marks::{MarkRefusal, Marks};

impl<M: Memory> Bridge<Marks<M>> {
    // Marks a line; all else of the bridge stays as it was. Refuses an absent line with 14, a 33rd mark with 17, and leaves all.
    pub fn mark(&mut self, line: u64) -> Result<(), MarkRefusal>
        ensures answer { answered no_values mark_cause result ≡ mark_answer (marks_of self.old.memory) (M.Memory.content self.old.memory.below) line }
        ensures by_lines { NeverSpoiled (M.Memory.content self.old.memory.below) → answered no_values mark_cause result ≡ mark_answer_of_lines (state_of (lines_under M.Memory.content) self.old).lines line }
        ensures marks { marks_of self.new.memory ≡ with_mark (answered no_values mark_cause result) (marks_of self.old.memory) line }
        ensures below { self.new.memory.below ≡ self.old.memory.below }
        ensures after { state_of (lines_under M.Memory.content) self.new ≡ with_lines (lines_marked (answered no_values mark_cause result) line) (state_of (lines_under M.Memory.content) self.old) }
    {
        self.memory.mark(line)
    }
}
