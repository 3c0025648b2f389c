// The load of one row: a bridge over its memory, rounds of bursts, and a checksum.
ghost use Rattle.std.specs.Prelude.{◌<◌, ◌≤◌};

use crate::checksum::Checksum;
use crate::errors::SpeedError;
use crate::memories::PAGES;
use crate::rows::{Row, Through};
use bridge::Bridge;
use bridge::bursts::{ReadRefusal, WriteCounts, WriteRefusal};
use bridge::log::Direction;
use memory::Memory;
use memory::refusals::Refusal;
use seeded::Random;
use std::alloc::Global;
use std::rt::Clock;
use std::time::{Duration, Instant};

// The bursts of a round.
const BURSTS: usize = 64;

// The seed of the bytes of a memory, and of its bursts.
const SEED: u64 = 0x2545_f491_4f6c_dd1d;

// The plain window holds PCI 4000_0000h to 400F_FFFFh and leads to address 0 and up, the mapped one PCI 8000_0000h to
// 800F_FFFFh.
const PLAIN: u32 = 0x4000_0000;

const MAPPED: u32 = 0x8000_0000;

// The line where the table of the mapped window begins, in the last page.
const TABLE_LINE: u64 = 63 * 256;

// The lines of a memory.
const LINES: u64 = 64 * 256;

// A burst with what it is answered. A read fills `words`, a write stores them. Of a read's answer the number is kept: to move a
// whole refusal takes about as long as a burst of one longword.
#[derive(Clone, Copy)]
struct Job {
    pci: u32,
    words: [u32; 64],
    enables: [u8; 64],
    read: u8,
    written: Result<WriteCounts, WriteRefusal>,
}

const EMPTY: Job = Job {
    pci: 0,
    words: [0; 64],
    enables: [0; 64],
    read: 0,
    written: Ok(WriteCounts {
        taken: 0,
        stored: 0,
        dismissed: 0,
    }),
};

// What a row came to.
#[derive(Clone, Copy)]
pub struct Outcome {
    pub checksum: u64,
    pub picoseconds: u64,
}

// The low byte of the table's entry for a page: it is valid, and names another page.
fn entry_byte(page: u64) -> u8 {
    ((page % PAGES * 37 + 11) % PAGES * 2 + 1) as u8
}

// The table's line that has the entries of four pages from this one on.
fn table_line(first: u64) -> [u8; 32] {
    let mut line = [0; 32];
    for (i, byte) in line.iter_mut().enumerate() {
        if i % 8 == 0 {
            *byte = entry_byte(first.wrapping_add(i as u64 / 8));
        }
    }
    line
}

// The upper four bits of the next number.
fn random_enable(random: &mut Random) -> u8 {
    (random.next() >> 60) as u8
}

// Opens both windows of a new bridge. Their masks, and the translated base of the first, stay 0.
fn open_windows<M: Memory>(bridge: &mut Bridge<M>) -> Result<(), SpeedError> {
    bridge.register_write(8, PLAIN + 0x8_0000)?;
    bridge.register_write(7, (TABLE_LINE * 16) as u32)?;
    bridge.register_write(9, MAPPED + 0xc_0000)?;
    Ok(())
}

// Stores random bytes into the pages that the bursts reach.
fn fill<M: Memory>(bridge: &mut Bridge<M>, random: &mut Random) -> Result<(), SpeedError> {
    for line in 0..PAGES * 256 {
        bridge.store(line * 32, &random.line())?;
    }
    Ok(())
}

// Stores the table of the mapped window.
fn store_table<M: Memory>(bridge: &mut Bridge<M>) -> Result<(), SpeedError> {
    for i in 0..PAGES / 4 {
        bridge.store((TABLE_LINE + i) * 32, &table_line(4 * i))?;
    }
    Ok(())
}

// The page of the next burst.
fn next_page(through: Through, random: u64, turn: u64) -> u64
    ensures { result < 56 }
{
    match through {
        Through::Plain => random % PAGES,
        Through::Hits => random % 8,
        Through::Misses => turn % PAGES,
    }
}

// Where the window begins.
fn window_base(through: Through) -> u32
    ensures { result ≤ 0x8000_0000 }
{
    match through {
        Through::Plain => PLAIN,
        Through::Hits | Through::Misses => MAPPED,
    }
}

impl Job {
    // Makes the next burst. It begins at a random longword of its page, and ends in that page.
    fn make(&mut self, row: &Row, random: &mut Random, turn: u64) {
        let x = random.next();
        let page = next_page(row.through, x >> 32, turn);
        let base = window_base(row.through);
        self.pci = base + page as u32 * 0x2000 + (x % 1985) as u32 * 4;
        if row.direction == Direction::Write {
            self.make_words(row.count, random);
            self.make_enables(row.count, random);
        }
    }

    fn make_words(&mut self, count: usize, random: &mut Random) {
        for word in self.words.iter_mut().take(count) {
            *word = random.longword();
        }
    }

    // One burst of two has all bytes enabled, the other random ones.
    fn make_enables(&mut self, count: usize, random: &mut Random) {
        let all = random_enable(random) % 2 == 0;
        for enable in self.enables.iter_mut().take(count) {
            *enable = if all { 15 } else { random_enable(random) };
        }
    }

    // Adds the answer of a read, and the longwords that it moved.
    fn add_read(&self, count: usize, sum: &mut Checksum) {
        sum.add(u64::from(self.read));
        for word in self.words.iter().take(count) {
            sum.add(u64::from(*word));
        }
    }

    // Adds the answer of a write.
    fn add_written(&self, sum: &mut Checksum) {
        match self.written {
            Ok(counts) => {
                sum.add(counts.taken as u64);
                sum.add(counts.stored as u64);
                sum.add(counts.dismissed as u64);
            }
            Err(refusal) => sum.add(u64::from(refusal.number())),
        }
    }

    fn add_to(&self, row: &Row, sum: &mut Checksum) {
        match row.direction {
            Direction::Read => self.add_read(row.count, sum),
            Direction::Write => self.add_written(sum),
        }
    }
}

fn make_all(jobs: &mut [Job], row: &Row, random: &mut Random, turn: u64) {
    for (i, job) in jobs.iter_mut().enumerate() {
        job.make(row, random, turn.wrapping_add(i as u64));
    }
}

// The number of a read's answer: 0, or that of its refusal.
fn read_number(answer: Result<(), ReadRefusal>) -> u8 {
    match answer {
        Ok(()) => 0,
        Err(refusal) => refusal.number(),
    }
}

fn read_all<M: Memory>(bridge: &mut Bridge<M>, count: usize, jobs: &mut [Job]) {
    for job in jobs.iter_mut() {
        job.read = read_number(bridge.card_read(job.pci, count, &mut job.words));
    }
}

fn write_all<M: Memory>(bridge: &mut Bridge<M>, count: usize, jobs: &mut [Job]) {
    for job in jobs.iter_mut() {
        job.written = bridge.card_write(job.pci, count, &job.words, &job.enables);
    }
}

fn serve_all<M: Memory>(bridge: &mut Bridge<M>, row: &Row, jobs: &mut [Job]) {
    match row.direction {
        Direction::Read => read_all(bridge, row.count, jobs),
        Direction::Write => write_all(bridge, row.count, jobs),
    }
}

fn add_all(jobs: &[Job], row: &Row, sum: &mut Checksum) {
    for job in jobs {
        job.add_to(row, sum);
    }
}

fn nanoseconds(taken: Duration) -> u64 {
    u64::try_from(taken.as_nanos()).unwrap_or(u64::MAX)
}

// Serves the rounds, adds what they read and are answered, and keeps the nanoseconds of each. Only the bursts are timed.
fn run_rounds<M: Memory, R: Clock>(
    rt: &R,
    bridge: &mut Bridge<M>,
    row: &Row,
    jobs: &mut [Job],
    times: &mut [u64],
    sum: &mut Checksum,
) -> Result<(), SpeedError> {
    let mut random = Random::new(SEED);
    let mut turn = 0;
    for time in times.iter_mut() {
        make_all(jobs, row, &mut random, turn);
        turn = turn.wrapping_add(BURSTS as u64);
        let start = Instant::now(rt)?;
        serve_all(bridge, row, jobs);
        *time = nanoseconds(start.elapsed(rt)?);
        add_all(jobs, row, sum);
    }
    Ok(())
}

// The picoseconds of a burst in the median round, which the other work of a machine disturbs least.
fn picoseconds(times: &mut [u64]) -> u64 {
    times.sort_unstable();
    let median = times.get(times.len() / 2).copied().unwrap_or(0);
    median.saturating_mul(1000) / BURSTS as u64
}

// Adds the bytes of a line, or why it is not readable.
fn add_line<M: Memory>(bridge: &Bridge<M>, line: u64, sum: &mut Checksum) {
    match bridge.load(line.wrapping_mul(32)) {
        Ok(bytes) => {
            for byte in bytes {
                sum.add(u64::from(byte));
            }
        }
        Err(refusal) => sum.add(u64::from(refusal.number())),
    }
}

fn add_lines<M: Memory>(bridge: &Bridge<M>, sum: &mut Checksum) {
    for line in 0..LINES {
        add_line(bridge, line, sum);
    }
}

// Adds what the tags and data of the look-aside rows read.
fn add_look_aside<M: Memory>(bridge: &Bridge<M>, sum: &mut Checksum) -> Result<(), SpeedError> {
    for n in 16..32 {
        sum.add(u64::from(bridge.register_read(n)?));
    }
    Ok(())
}

// Runs a row on a new bridge over a memory, and says its checksum and how long a burst took.
pub(crate) fn run_row<M: Memory + Drop, R: Clock>(
    rt: &R,
    heap: Global,
    memory: M,
    row: Row,
    rounds: usize,
) -> Result<Outcome, SpeedError> {
    let mut bridge = Bridge::new(memory);
    open_windows(&mut bridge)?;
    fill(&mut bridge, &mut Random::new(SEED))?;
    store_table(&mut bridge)?;
    let mut jobs = vec![in heap; EMPTY; BURSTS]?;
    let mut times = vec![in heap; 0; rounds]?;
    let mut sum = Checksum::new();
    run_rounds(
        rt,
        &mut bridge,
        &row,
        jobs.as_mut_slice(),
        times.as_mut_slice(),
        &mut sum,
    )?;
    add_lines(&bridge, &mut sum);
    add_look_aside(&bridge, &mut sum)?;
    Ok(Outcome {
        checksum: sum.value(),
        picoseconds: picoseconds(times.as_mut_slice()),
    })
}
