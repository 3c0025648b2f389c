// The look-aside rows: table entries that were read before.
ghost use Rattle.std.specs.Prelude.{◌≡◌, ◌<◌, Some, None};

use memory::rows::{Row, find};

// A valid row: which page a PCI page lies in.
#[derive(Clone, Copy)]
pub struct LookAsideRow {
    pci_page: u32,
    page: u32,
}

// Eight rows, each valid or not, and the one that is filled next.
#[derive(Clone, Copy)]
pub struct LookAside {
    rows: [Option<LookAsideRow>; 8],
    pointer: usize,
    ghost below: { pointer < 8 },
}

impl Row for LookAsideRow {
    ghost use Rattle.bridge.specs.LookAside.{row_answers};

    ghost answers = { row_answers };

    fn answers(&self, pci_page: u64) -> bool {
        u64::from(self.pci_page) == pci_page
    }
}

impl LookAside {
    ghost use Rattle.bridge.specs.LookAside.{cached_page, filled, row, zero_rows};
    ghost use Rattle.bridge.specs.Registers.{data_value, tag_value};

    // No row is valid, and the pointer is 0.
    pub(crate) fn zero() -> LookAside
        ensures { result ≡ zero_rows }
    {
        LookAside {
            rows: [None; 8],
            pointer: 0,
        }
    }

    // The row of an index, where there is one and it is valid.
    fn row(&self, i: usize) -> Option<LookAsideRow>
        ensures { result ≡ row self.now i }
    {
        self.rows.get(i).copied().flatten()
    }

    // The tag of a row: its PCI page in bits 31:13, and 1 in bit 12. One that is not valid reads 0.
    pub(crate) fn tag(&self, i: usize) -> u32
        ensures { result ≡ tag_value (row self.now i) }
    {
        self.row(i)
            .map_or(0, |row| row.pci_page % 0x8_0000 * 0x2000 + 0x1000)
    }

    // The data of a row: its page number in bits 20:1. One that is not valid reads 0.
    pub(crate) fn data_of(&self, i: usize) -> u32
        ensures { result ≡ data_value (row self.now i) }
    {
        self.row(i).map_or(0, |row| row.page % 0x10_0000 * 2)
    }

    // The page that the first row that answers for a PCI page names.
    pub(crate) fn page(&self, pci_page: u32) -> Option<u32>
        ensures { result ≡ cached_page self.now pci_page }
    {
        let i = find(&self.rows, u64::from(pci_page))?;
        self.row(i).map(|row| row.page)
    }

    // Fills the row under the pointer for a PCI page that no row answers for, and moves the pointer on. The other seven rows stay.
    pub(crate) fn fill(&mut self, pci_page: u32, page: u32)
        requires { cached_page self.old pci_page ≡ None }
        ensures after { self.new ≡ filled self.old pci_page page }
        ensures found { cached_page self.new pci_page ≡ Some page }
    {
        self.rows[self.pointer] = Some(LookAsideRow { pci_page, page });
        self.pointer = (self.pointer + 1) % 8;
    }
}
