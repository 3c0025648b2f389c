// The rows of the load: kind of memory, window, longwords of a burst, direction.
use crate::memories::MemoryKind;
use bridge::log::Direction;
use std::fmt;

// Where the bursts go: through the plain window; through the mapped one into pages that the look-aside rows hold; or through
// the mapped one into pages in turn, so that each burst misses.
#[derive(Clone, Copy)]
pub enum Through {
    Plain,
    Hits,
    Misses,
}

impl fmt::Display for Through {
    fn fmt<W: fmt::Write>(&self, f: &mut fmt::Formatter<W>) -> fmt::Result {
        f.write_str(match self {
            Through::Plain => "plain",
            Through::Hits => "hits",
            Through::Misses => "misses",
        })
    }
}

// One row of the load.
#[derive(Clone, Copy)]
pub struct Row {
    pub memory: MemoryKind,
    pub through: Through,
    pub count: usize,
    pub direction: Direction,
}

const MEMORIES: [MemoryKind; 3] = [MemoryKind::Flat, MemoryKind::Banked, MemoryKind::Marked];

const THROUGH: [Through; 3] = [Through::Plain, Through::Hits, Through::Misses];

const COUNTS: [usize; 3] = [1, 8, 64];

const DIRECTIONS: [Direction; 2] = [Direction::Read, Direction::Write];

// How many rows there are.
pub(crate) const ROWS: usize = 54;

impl Row {
    // The row of an index; the direction changes fastest, the kind of memory slowest.
    pub(crate) fn nth(i: usize) -> Row {
        Row {
            memory: MEMORIES[i / 18 % 3],
            through: THROUGH[i / 6 % 3],
            count: COUNTS[i / 2 % 3],
            direction: DIRECTIONS[i % 2],
        }
    }
}

impl fmt::Display for Row {
    fn fmt<W: fmt::Write>(&self, f: &mut fmt::Formatter<W>) -> fmt::Result {
        write!(
            f,
            "{} {} {} {}",
            self.memory, self.through, self.count, self.direction
        )
    }
}
