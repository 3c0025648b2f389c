// The processor's calls.
ghost use Rattle.std.specs.Prelude.{◌≡◌, ◌/◌, [], ◌∷◌, IfErr, if◌then◌else◌, Ok, Err};
ghost use Rattle.memory.specs.Answers.{answered, no_values};
ghost use Rattle.bridge.specs.Calls.{load, performed, processor, register_read, register_write, store};
ghost use Rattle.bridge.specs.Registers.{register_cause, register_named, write_refusal};
ghost use Rattle.bridge.specs.Processor.{OfLine, access_cause, no_line};
ghost use Rattle.bridge.specs.State.{state_of};
ghost use Rattle.bridge.specs.declared.processor.AccessRefusal.TheVariants.{Memory};
ghost use Rattle.bridge.specs.declared.registers.RegisterRefusal.TheVariants.{NotListed};

use crate::Bridge;
use crate::line::BLANK;
use crate::look_aside::LookAside;
use crate::registers::{Register, RegisterRefusal};
use memory::refusals::Refusal;
use memory::{Memory, MemoryFault};

// Why a load or a store is refused: its address, or by the memory.
#[derive(Clone, Copy, Debug, PartialEq, Eq)]
pub enum AccessRefusal {
    Address,
    Memory(MemoryFault),
}

impl Refusal for AccessRefusal {
    ghost cause = { access_cause };

    fn number(&self) -> u8 {
        match self {
            AccessRefusal::Address => 11,
            AccessRefusal::Memory(MemoryFault::Absent(_)) => 14,
            AccessRefusal::Memory(MemoryFault::Spoiled(_)) => 15,
        }
    }
}

impl From<MemoryFault> for AccessRefusal {
    ghost from_gives = { λ fault r. r ≡ Memory fault };

    fn from(fault: MemoryFault) -> AccessRefusal {
        AccessRefusal::Memory(fault)
    }
}

// The line at an address.
fn line_at(address: u64) -> Result<u64, AccessRefusal>
    ensures { result ≡ (if no_line address then Err AccessRefusal.Address else Ok (address / 32)) }
{
    if address % 32 != 0 || address >= 0x1_8000_0000 {
        return Err(AccessRefusal::Address);
    }
    Ok(address / 32)
}

impl<M: Memory> Bridge<M> {
    // What a register reads. Any number may be asked, and one that names no register is refused.
    pub fn register_read(&self, n: u64) -> Result<u32, RegisterRefusal>
        ensures answer { answered (λ value. value ∷ []) register_cause result ≡ (performed (state_of M.Memory.content self.now) (processor (register_read n))).answer }
        ensures which { IfErr result (λ e. e ≡ NotListed) }
    {
        let register = Register::try_from(n)?;
        Ok(self.registers.read(&self.look_aside, register))
    }

    // Writes a register, which drops the bits that it does not keep. 32 zeroes the look-aside rows and their pointer.
    pub fn register_write(&mut self, n: u64, value: u32) -> Result<(), RegisterRefusal>
        ensures answer { answered no_values register_cause result ≡ (performed (state_of M.Memory.content self.old) (processor (register_write n value))).answer }
        ensures which { IfErr result (λ e. e ≡ write_refusal (register_named n)) }
        ensures after { state_of M.Memory.content self.new ≡ (performed (state_of M.Memory.content self.old) (processor (register_write n value))).state }
    {
        let register = Register::try_from(n)?;
        self.registers.write(register, value)?;
        if register == Register::InvalidateAll {
            self.look_aside = LookAside::zero();
        }
        Ok(())
    }

    // The 32 bytes of the line at an address. Refuses an address at which no line begins or that no memory has with 11, an absent
    // line with 14, a spoiled one with 15.
    pub fn load(&self, address: u64) -> Result<[u8; 32], AccessRefusal>
        ensures answer { answered (λ bytes. bytes) access_cause result ≡ (performed (state_of M.Memory.content self.now) (processor (load address))).answer }
        ensures line { IfErr result (OfLine (address / 32)) }
    {
        let line = line_at(address)?;
        let mut bytes = BLANK;
        self.memory.read(line, &mut bytes)?;
        Ok(bytes)
    }

    // Stores 32 bytes into the line at an address, also a spoiled one, which is good then. Refuses an address at which no line begins or
    // that no memory has with 11, an absent line with 14, and leaves all as it was.
    pub fn store(&mut self, address: u64, bytes: &[u8; 32]) -> Result<(), AccessRefusal>
        ensures answer { answered no_values access_cause result ≡ (performed (state_of M.Memory.content self.old) (processor (store address bytes.now))).answer }
        ensures line { IfErr result (OfLine (address / 32)) }
        ensures after { state_of M.Memory.content self.new ≡ (performed (state_of M.Memory.content self.old) (processor (store address bytes.now))).state }
    {
        let line = line_at(address)?;
        self.memory.write(line, bytes, u32::MAX)?;
        Ok(())
    }
}
