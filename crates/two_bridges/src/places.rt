// Which pages are hidden, where the tables lie, and where windows and entries lead.
//
// The premise of the isolation theorem holds of every list of calls that `calls.rt` makes, whatever its random numbers are:
//
// - A window is disabled before its other registers change, and is then one of `WINDOWS`. So the tables in use lie in
//   `TABLE_PAGE` and in page 800h, which is absent, and an enabled plain window leads to pages 80h to FFh, 100h to 1FFh or
//   80000h to 8007Fh. No hidden page and no page of a table is among them.
// - The lines of `TABLE_PAGE` hold zeros at first. Only the driver stores there, and its valid entries name `ENTRY_PAGES`; an
//   entry that is not valid may hold the number of a hidden page, but names none. A row is filled by a valid entry. So no
//   entry and no row names a hidden page or a page of a table.
// - So a card writes to pages that a plain window leads to and to `ENTRY_PAGES` alone, and changes no table.
//
// Besides, the two memories are filled alike outside hidden pages (`memories.rt`), and the two lists of calls differ in the
// bytes of stores into hidden pages alone (`calls.rt`).
use memory::banks::Bank;

// Lines of a page.
pub const PAGE_LINES: u64 = 256;

// Bytes of a page.
pub const PAGE_BYTES: u64 = 8192;

// Both memories have 136 pages: the first megabyte and eight pages more.
pub const PAGES: u64 = 136;

// The same addresses as banks, so that the bytes lie in another order than in the flat memory.
pub const BANKS: [Bank; 3] = [
    Bank {
        base: 0x10_0000,
        size: 0x1_0000,
    },
    Bank {
        base: 0x8_0000,
        size: 0x8_0000,
    },
    Bank {
        base: 0,
        size: 0x8_0000,
    },
];

// The pages that the processor keeps to itself.
pub const HIDDEN: [u64; 4] = [3, 5, 0x40, 0x7f];

// The page of the table that is there. It is no hidden page: the processor keeps it closed, but the same on both sides.
pub const TABLE_PAGE: u64 = 2;

// The lines of the table that the driver stores: those of the first twelve entries, of the last four of 128, and of eight that
// only a window of two megabytes reads.
pub const TABLE_LINES: [u64; 6] = [0, 1, 2, 31, 32, 33];

// A line of the table that cards use and the driver never stores.
pub const SPARE_TABLE_LINE: u64 = 3;

// The pages that a valid entry may name: some next to hidden ones, some that a plain window leads to, and two that are absent.
pub const ENTRY_PAGES: [u64; 8] = [4, 6, 0x3f, 0x41, 0x80, 0x87, 0x88, 0xf_ffff];

// Those that are there.
pub const OPEN_PAGES: [u64; 6] = [4, 6, 0x3f, 0x41, 0x80, 0x87];

// A window as its three registers are written.
#[derive(Clone, Copy)]
pub struct Window {
    pub translated: u32,
    pub base: u32,
    pub mask: u32,
}

// The windows that the driver sets up.
pub const WINDOWS: [Window; 9] = [
    // PCI 4000_0000h to 400F_FFFFh, mapped by 128 entries of the table.
    Window {
        translated: 0x2000,
        base: 0x400c_0000,
        mask: 0,
    },
    // PCI 4010_0000h to 401F_FFFFh, mapped by the same entries.
    Window {
        translated: 0x2000,
        base: 0x401c_0000,
        mask: 0,
    },
    // The last megabyte of PCI addresses, mapped by the same entries.
    Window {
        translated: 0x2000,
        base: 0xfffc_0000,
        mask: 0,
    },
    // PCI 4000_0000h to 401F_FFFFh, mapped by 256 entries of the table.
    Window {
        translated: 0x2000,
        base: 0x400c_0000,
        mask: 0x10_0000,
    },
    // PCI 4010_0000h to 401F_FFFFh, mapped by a table at address 100_0000h, which is absent.
    Window {
        translated: 0x80_0000,
        base: 0x401c_0000,
        mask: 0,
    },
    // PCI 4000_0000h to 400F_FFFFh, plain, to address 10_0000h and up, of which eight pages are there.
    Window {
        translated: 0x8_0000,
        base: 0x4008_0000,
        mask: 0,
    },
    // PCI 4010_0000h to 401F_FFFFh, plain, to the same addresses.
    Window {
        translated: 0x8_0000,
        base: 0x4018_0000,
        mask: 0,
    },
    // PCI 4000_0000h to 401F_FFFFh, plain, to address 20_0000h and up, which is absent.
    Window {
        translated: 0x10_0000,
        base: 0x4008_0000,
        mask: 0x10_0000,
    },
    // PCI 4010_0000h to 401F_FFFFh, plain, to address 1_0000_0000h and up, which is absent.
    Window {
        translated: 0x8000_0000,
        base: 0x4018_0000,
        mask: 0,
    },
];

// The address of a line of a page.
pub(crate) fn line_address(page: u64, line: u64) -> u64 {
    page << 13 | line << 5
}

// Whether a line lies in a hidden page.
pub(crate) fn is_hidden_line(line: u64) -> bool {
    HIDDEN.contains(&(line / PAGE_LINES))
}

// Whether an address does.
pub(crate) fn is_hidden(address: u64) -> bool {
    is_hidden_line(address / 32)
}

// The two bridges and their memories.
#[derive(Clone, Copy, Debug, PartialEq, Eq)]
pub enum Side {
    Left,
    Right,
}

impl Side {
    // What a hidden line holds on this side, made of the same bytes for both: no byte is the same in the two.
    pub(crate) fn hidden_bytes(self, bytes: [u8; 32]) -> [u8; 32] {
        match self {
            Side::Left => bytes,
            Side::Right => bytes.map(|byte| !byte),
        }
    }
}
