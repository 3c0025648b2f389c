// The list of calls, made from a seed.
mod cards;
mod driver;

use crate::draws::Draws;
use crate::places::Side;
use bridge::calls::{Call, Request, Step};
use seeded::Random;
use std::alloc::{AllocError, Global};

const SEED: u64 = 0x2107_1da0_2107_1da1;

// A deed is one to four calls.
const DEEDS: u64 = 20_000;

// The calls so far, on one of the two sides. What is drawn does not depend on the side, so the two lists differ only in the
// bytes of stores into hidden pages.
#[derive(Drop)]
struct CallList {
    side: Side,
    random: Random,
    steps: Vec<Step>,
}

// The calls for one side.
pub(crate) fn call_list(heap: Global, side: Side) -> Result<Vec<Step>, AllocError> {
    let mut list = CallList {
        side,
        random: Random::new(SEED),
        steps: Vec::new(heap),
    };
    for _ in 0..DEEDS {
        list.add_deed(heap)?;
    }
    Ok(list.steps)
}

impl CallList {
    // Something that a card, the driver of its windows, or another program does.
    fn add_deed(&mut self, heap: Global) -> Result<(), AllocError> {
        match self.random.below(20) {
            0..=6 => self.card_read(heap),
            7..=10 => self.card_write(heap),
            11 => self.change_window(),
            12 => self.change_table(),
            13 => self.change_register(),
            14 => self.store_hidden(),
            15 => self.store_open(),
            16 => self.load(),
            17 => self.decode(),
            18 => self.read_register(),
            _ => self.use_log(),
        }
    }

    fn add(&mut self, call: Call) -> Result<(), AllocError> {
        self.steps.push(Step { call, answer: None })?;
        Ok(())
    }

    fn ask(&mut self, request: Request) -> Result<(), AllocError> {
        self.add(Call::Processor(request))
    }
}
