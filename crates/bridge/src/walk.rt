// From a PCI address to a physical one: by a plain window, a look-aside row, or an entry of a table.
ghost use Rattle.std.specs.Prelude.{◌≡◌, ◌/◌, ◌%◌, IfOk};
ghost use Rattle.bridge.specs.State.{state_of, with_rows};
ghost use Rattle.bridge.specs.Translation.{entry_of, located_claimed, page_address, place_by, reached};

use crate::Bridge;
use crate::faults::WalkFault;
use crate::line::{BLANK, quadword};
use memory::Memory;

// A PCI address of a longword, with the window that holds it and whether that is mapped.
#[derive(Clone, Copy)]
pub(crate) struct Claimed {
    pub(crate) number: u8,
    pub(crate) mapped: bool,
    pub(crate) pci: u32,
    ghost aligned: { pci % 4 ≡ 0 },
}

// The address in a page: the page number supplies bits 32:13, the PCI address bits 12:0.
fn page_address(page: u32, pci: u32) -> u64
    ensures { result ≡ page_address page pci }
{
    u64::from(page) * 0x2000 + u64::from(pci % 0x2000)
}

impl<M: Memory> Bridge<M> {
    // The page that the entry of a table names.
    #[inline(never)]
    fn entry_page(&self, address: u64) -> Result<u32, WalkFault>
        requires { address % 8 ≡ 0 }
        ensures { result ≡ entry_of (M.Memory.content self.now.memory (address / 32)) address }
    {
        let line = address / 32;
        let mut bytes = BLANK;
        self.memory.read(line, &mut bytes)?;
        let entry = quadword(&bytes, address);
        if entry % 2 == 0 {
            return Err(WalkFault::NotValid(line));
        }
        Ok((entry / 2 % 0x10_0000) as u32)
    }

    // Where a claimed address leads. The page of a valid entry goes into the look-aside rows.
    #[inline(always)]
    pub(crate) fn translate(&mut self, claimed: Claimed) -> Result<u64, WalkFault>
        ensures place { place_by result ≡ (located_claimed (state_of M.Memory.content self.old) claimed.pci claimed.number claimed.mapped).place }
        ensures low { IfOk result (λ address. address % 32 ≡ claimed.pci % 32) }
        ensures again { IfOk result (λ address. located_claimed (state_of M.Memory.content self.new) claimed.pci claimed.number claimed.mapped ≡ reached self.new.look_aside address) }
        ensures after { state_of M.Memory.content self.new ≡ with_rows (located_claimed (state_of M.Memory.content self.old) claimed.pci claimed.number claimed.mapped).look_aside (state_of M.Memory.content self.old) }
    {
        let window = *self.registers.window(claimed.number);
        let pci = claimed.pci;
        if !claimed.mapped {
            return Ok(window.plain_address(pci));
        }
        let pci_page = pci >> 13;
        if let Some(page) = self.look_aside.page(pci_page) {
            return Ok(page_address(page, pci));
        }
        let page = self.entry_page(window.entry_address(pci))?;
        self.look_aside.fill(pci_page, page);
        Ok(page_address(page, pci))
    }
}
