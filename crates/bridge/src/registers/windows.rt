// Windows: which PCI addresses one holds, and where they lead.
ghost use Rattle.std.specs.Prelude.{◌≡◌, ◌≤◌};
ghost use Rattle.bridge.specs.Bits.{bits};
ghost use Rattle.bridge.specs.Registers.{window};
ghost use Rattle.bridge.specs.Windows.{claim, enabled, entry_address, holds, mapped, mixed, plain_address, window_address};

use super::{Registers, Window};

// Bits 31:20.
fn top(n: u32) -> u32
    ensures value { result ≡ bits 31 20 n }
    ensures bound { result ≤ 0xfff }
{
    n >> 20
}

// Of twelve bits, those of `a` where the mask has a 1, else those of `b`.
fn mixed(mask: u32, a: u32, b: u32) -> u32
    requires { (mask ≤ 0xfff) × (b ≤ 0xfff) }
    ensures value { result ≡ mixed mask a b }
    ensures bound { result ≤ 0xfff }
{
    (a & mask) | (b & (0xfff - mask))
}

impl Window {
    fn enabled(&self) -> bool
        ensures { result ≡ enabled self.now }
    {
        (self.base >> 19) % 2 == 1
    }

    fn mapped(&self) -> bool
        ensures { result ≡ mapped self.now }
    {
        (self.base >> 18) % 2 == 1
    }

    // Whether the window is enabled and agrees with the address in every bit 31:20 that its mask leaves.
    fn holds(&self, pci: u32) -> bool
        ensures { result ≡ holds self.now pci }
    {
        self.enabled() && (top(pci) ^ top(self.base)) & (0xfff - top(self.mask)) == 0
    }

    // T with twelve of its bits, from `low` up, mixed with the PCI address's bits 31:20, and other bits below them.
    fn address(&self, low: u32, pci: u32, below: u32) -> u64
        requires { low ≤ 20 }
        ensures { result ≡ window_address self.now low pci below }
    {
        let base = u64::from(self.translated) * 2;
        let high = (base >> (low + 12)) << (low + 12);
        let middle = mixed(top(self.mask), top(pci), ((base >> low) % 0x1000) as u32);
        high + (u64::from(middle) << low) + u64::from(below)
    }

    // Where a plain window leads.
    pub(crate) fn plain_address(&self, pci: u32) -> u64
        ensures { result ≡ plain_address self.now pci }
    {
        self.address(20, pci, pci % 0x10_0000)
    }

    // Where the table of a mapped window has the entry of an address.
    pub(crate) fn entry_address(&self, pci: u32) -> u64
        ensures { result ≡ entry_address self.now pci }
    {
        self.address(10, pci, (pci >> 13) % 0x80 * 8)
    }
}

impl Registers {
    // The window of a number, 1 or 2.
    pub(crate) fn window(&self, number: u8) -> &Window
        ensures { result.now ≡ window self.now number }
    {
        if number == 1 {
            &self.first
        } else {
            &self.second
        }
    }

    // Which window holds an address, by its number, and whether it is mapped: the device answers both together. Window 1 is tried
    // first.
    pub(crate) fn claim(&self, pci: u32) -> Option<(u8, bool)>
        ensures { result ≡ claim self.now pci }
    {
        if self.first.holds(pci) {
            Some((1, self.first.mapped()))
        } else if self.second.holds(pci) {
            Some((2, self.second.mapped()))
        } else {
            None
        }
    }
}
