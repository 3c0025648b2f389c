// The registers that the processor writes.
mod windows;

ghost use Rattle.std.specs.Prelude.{◌≡◌, ◌<◌};
ghost use Rattle.bridge.specs.Bits.{bits_kept};
ghost use Rattle.bridge.specs.Registers.{listed, register_cause, register_named, register_value, registers_written, with_base, with_mask, with_translated, write_result, zero_registers};

use crate::look_aside::LookAside;
use memory::refusals::Refusal;

// One window, as its three registers hold it.
#[derive(Clone, Copy, Default)]
pub struct Window {
    base: u32,
    mask: u32,
    translated: u32,
}

// What the processor writes and reads back: two windows, HAXR1 and HAXR2. HAXR0 keeps nothing, and the registers of the
// look-aside rows are read from the rows.
#[derive(Clone, Copy, Default)]
pub struct Registers {
    first: Window,
    second: Window,
    haxr1: u32,
    haxr2: u32,
}

// A register by what it holds: three of each window by its number, the three host address extension registers, a tag and a
// data register of each look-aside row by its index, and the one that invalidates all rows.
#[derive(Clone, Copy, Debug, PartialEq, Eq)]
pub enum Register {
    TranslatedBase(u8),
    PciBase(u8),
    PciMask(u8),
    Haxr0,
    Haxr1,
    Haxr2,
    RowTag(usize),
    RowData(usize),
    InvalidateAll,
}

// Why a register call is refused: the number names no register, or a write names one that can only be read.
#[derive(Clone, Copy, Debug, PartialEq, Eq)]
pub enum RegisterRefusal {
    NotListed,
    ReadOnly,
}

impl Refusal for RegisterRefusal {
    ghost cause = { register_cause };

    fn number(&self) -> u8 {
        match self {
            RegisterRefusal::NotListed | RegisterRefusal::ReadOnly => 10,
        }
    }
}

// The register of a number.
impl TryFrom<u64> for Register {
    type Error = RegisterRefusal;

    ghost try_from_gives = { λ n r. r ≡ listed (register_named n) };

    fn try_from(n: u64) -> Result<Register, RegisterRefusal> {
        match n {
            6 => Ok(Register::TranslatedBase(1)),
            7 => Ok(Register::TranslatedBase(2)),
            8 => Ok(Register::PciBase(1)),
            9 => Ok(Register::PciBase(2)),
            10 => Ok(Register::PciMask(1)),
            11 => Ok(Register::PciMask(2)),
            12 => Ok(Register::Haxr0),
            13 => Ok(Register::Haxr1),
            14 => Ok(Register::Haxr2),
            16..=23 => Ok(Register::RowTag((n - 16) as usize)),
            24..=31 => Ok(Register::RowData((n - 24) as usize)),
            32 => Ok(Register::InvalidateAll),
            _ => Err(RegisterRefusal::NotListed),
        }
    }
}

// Bits 31:low, at their place.
fn bits_from(low: u32, value: u32) -> u32
    requires { low < 32 }
    ensures { result ≡ bits_kept 31 low value }
{
    (value >> low) << low
}

impl Window {
    // Keeps bits 31:9.
    fn set_translated(&mut self, value: u32)
        ensures { self.new ≡ with_translated self.old (bits_kept 31 9 value) }
    {
        self.translated = bits_from(9, value);
    }

    // Keeps bits 31:18: the base, the enable and the mapped bit.
    fn set_base(&mut self, value: u32)
        ensures { self.new ≡ with_base self.old (bits_kept 31 18 value) }
    {
        self.base = bits_from(18, value);
    }

    // Keeps bits 31:20.
    fn set_mask(&mut self, value: u32)
        ensures { self.new ≡ with_mask self.old (bits_kept 31 20 value) }
    {
        self.mask = bits_from(20, value);
    }
}

impl Registers {
    // Every register is 0.
    pub(crate) fn zero() -> Registers
        ensures { result ≡ zero_registers }
    {
        Registers::default()
    }

    // Keeps the bits that a register names. HAXR0 has none, and the rows are not in this record.
    pub(crate) fn write(&mut self, register: Register, value: u32) -> Result<(), RegisterRefusal>
        ensures answer { result ≡ write_result register }
        ensures after { self.new ≡ registers_written self.old register value }
    {
        // Two arms for a register of both windows: lending one of two fields would need a clause about the loan.
        match register {
            Register::TranslatedBase(1) => self.first.set_translated(value),
            Register::TranslatedBase(_) => self.second.set_translated(value),
            Register::PciBase(1) => self.first.set_base(value),
            Register::PciBase(_) => self.second.set_base(value),
            Register::PciMask(1) => self.first.set_mask(value),
            Register::PciMask(_) => self.second.set_mask(value),
            Register::Haxr1 => self.haxr1 = bits_from(27, value),
            Register::Haxr2 => self.haxr2 = bits_from(24, value) + value % 4,
            Register::RowTag(_) | Register::RowData(_) => return Err(RegisterRefusal::ReadOnly),
            Register::Haxr0 | Register::InvalidateAll => {}
        }
        Ok(())
    }

    // What a register reads, with the look-aside rows that have the rest.
    pub(crate) fn read(&self, look_aside: &LookAside, register: Register) -> u32
        ensures { result ≡ register_value self.now look_aside.now register }
    {
        match register {
            Register::TranslatedBase(number) => self.window(number).translated,
            Register::PciBase(number) => self.window(number).base,
            Register::PciMask(number) => self.window(number).mask,
            Register::Haxr1 => self.haxr1,
            Register::Haxr2 => self.haxr2,
            Register::RowTag(i) => look_aside.tag(i),
            Register::RowData(i) => look_aside.data_of(i),
            Register::Haxr0 | Register::InvalidateAll => 0,
        }
    }

    // PCI address bits 31:27 of sparse memory, at their place.
    pub(crate) fn haxr1(&self) -> u32
        ensures { result ≡ self.now.haxr1 }
    {
        self.haxr1
    }

    // Bits 1:0 name the type of a configuration access.
    pub(crate) fn haxr2(&self) -> u32
        ensures { result ≡ self.now.haxr2 }
    {
        self.haxr2
    }
}
