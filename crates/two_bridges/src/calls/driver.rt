// What the processor asks.
ghost use Rattle.std.specs.Prelude.{◌<◌, length};

use super::CallList;
use crate::draws::Draws;
use crate::places::{
    ENTRY_PAGES, HIDDEN, OPEN_PAGES, TABLE_LINES, TABLE_PAGE, WINDOWS, line_address,
};
use bridge::calls::Request;
use seeded::Random;
use std::alloc::AllocError;

// Numbers of registers that set up no window: read only ones, those that invalidate rows and name decoding, and unlisted ones.
const OTHER_REGISTERS: [u64; 8] = [5, 12, 13, 14, 15, 20, 32, 33];

// Where the regions of processor addresses begin, and one outside them.
const REGIONS: [u64; 5] = [
    0x1_c000_0000,
    0x1_e000_0000,
    0x2_0000_0000,
    0x3_0000_0000,
    0x4_0000_0000,
];

// Addresses that no line is loaded from or stored to: absent, no multiple of 32, and above all memories.
const STRAY_ADDRESSES: [u64; 3] = [0x11_0000, 0x8004, 0x1_8000_0000];

// An entry of the table. One that is not valid may hold the number of a hidden page.
fn entry(random: &mut Random) -> u64 {
    if random.once_in(4) {
        random.pick(&HIDDEN) << 1
    } else {
        random.pick(&ENTRY_PAGES) << 1 | 1
    }
}

// Four entries.
fn table_line(random: &mut Random) -> [u8; 32] {
    let mut bytes = [0; 32];
    for quadword in bytes.chunks_exact_mut(8) {
        quadword.copy_from_slice(&entry(random).to_le_bytes());
    }
    bytes
}

// The address of a line in one of some pages.
fn line_in(random: &mut Random, pages: &[u64]) -> u64
    requires { 0 < length pages.now }
{
    line_address(random.pick(pages), random.below(256))
}

impl CallList {
    fn write_register(&mut self, n: u64, value: u32) -> Result<(), AllocError> {
        self.ask(Request::RegisterWrite { n, value })
    }

    // Sets up one of the two windows. It is not enabled while its other registers change.
    pub(super) fn change_window(&mut self) -> Result<(), AllocError> {
        let number = self.random.below(2);
        let window = self.random.pick(&WINDOWS);
        self.write_register(8 + number, 0)?;
        self.write_register(6 + number, window.translated)?;
        self.write_register(10 + number, window.mask)?;
        self.write_register(8 + number, window.base)
    }

    // Maps and unmaps four pages.
    pub(super) fn change_table(&mut self) -> Result<(), AllocError> {
        let address = line_address(TABLE_PAGE, self.random.pick(&TABLE_LINES));
        let bytes = table_line(&mut self.random);
        self.ask(Request::Store { address, bytes })
    }

    // Writes a register that sets up no window.
    pub(super) fn change_register(&mut self) -> Result<(), AllocError> {
        let n = self.random.pick(&OTHER_REGISTERS);
        let value = self.random.longword();
        self.write_register(n, value)
    }

    pub(super) fn read_register(&mut self) -> Result<(), AllocError> {
        let n = self.random.below(40);
        self.ask(Request::RegisterRead { n })
    }

    // Stores other bytes on each side.
    pub(super) fn store_hidden(&mut self) -> Result<(), AllocError> {
        let address = line_in(&mut self.random, &HIDDEN);
        let bytes = self.side.hidden_bytes(self.random.line());
        self.ask(Request::Store { address, bytes })
    }

    // Stores the same bytes on both sides, into a page that cards reach or at a stray address.
    pub(super) fn store_open(&mut self) -> Result<(), AllocError> {
        let bytes = self.random.line();
        let address = if self.random.once_in(10) {
            self.random.pick(&STRAY_ADDRESSES)
        } else {
            line_in(&mut self.random, &OPEN_PAGES)
        };
        self.ask(Request::Store { address, bytes })
    }

    pub(super) fn load(&mut self) -> Result<(), AllocError> {
        let address = match self.random.below(4) {
            0 => self.random.pick(&STRAY_ADDRESSES),
            1 => line_in(&mut self.random, &[TABLE_PAGE]),
            2 => line_in(&mut self.random, &HIDDEN),
            _ => line_in(&mut self.random, &OPEN_PAGES),
        };
        self.ask(Request::Load { address })
    }

    pub(super) fn decode(&mut self) -> Result<(), AllocError> {
        let cpu = self.random.pick(&REGIONS) | self.random.below(0x2000_0000);
        self.ask(Request::Decode { cpu })
    }

    pub(super) fn use_log(&mut self) -> Result<(), AllocError> {
        if self.random.once_in(2) {
            self.ask(Request::LogClear)
        } else {
            self.ask(Request::LogRead)
        }
    }
}
