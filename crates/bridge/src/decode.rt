// The decoding of processor addresses that lead to the PCI bus.
ghost use Rattle.std.specs.Prelude.{◌≡◌, ◌^◌, ◌<◌, ◌≤◌, if◌then◌else◌, Some, Ok, Err};
ghost use Rattle.memory.specs.Answers.{answered};
ghost use Rattle.bridge.specs.Bits.{bits, in_range};
ghost use Rattle.bridge.specs.Calls.{decode, performed, processor};
ghost use Rattle.bridge.specs.Processor.{configuration_0_address, configuration_1_address, cycle_values, decode_answer, decode_cause, decoded, decoded_configuration, decoded_dense, device_bit, lanes_allowed, sparse_io_address, sparse_lanes, sparse_memory_address, unless_lanes};
ghost use Rattle.bridge.specs.State.{state_of};
ghost use Rattle.bridge.specs.Words.{space_text};

use crate::Bridge;
use crate::registers::Registers;
use memory::Memory;
use memory::refusals::Refusal;
use std::fmt;

// The spaces that the processor reaches on the PCI bus, each printed as one word.
#[derive(Clone, Copy, Debug, PartialEq, Eq)]
pub enum Space {
    SparseMemory,
    DenseMemory,
    SparseIo,
    Configuration,
}

impl fmt::Display for Space {
    ghost output = { λ space. Some (space_text space) };

    fn fmt<W: fmt::Write>(&self, f: &mut fmt::Formatter<W>) -> fmt::Result {
        f.write_str(match self {
            Space::SparseMemory => "mem",
            Space::DenseMemory => "dense",
            Space::SparseIo => "io",
            Space::Configuration => "config",
        })
    }
}

// A cycle on the PCI bus: its space, its address, and its enabled lanes, bit j for lane j.
#[derive(Clone, Copy, Debug, PartialEq, Eq)]
pub struct Cycle {
    pub space: Space,
    pub pci: u32,
    pub lanes: u8,
}

// Why an address is not decoded: it lies in no region, its length, lane or low bits are not allowed, or HAXR2 names no
// type of configuration access.
#[derive(Clone, Copy, Debug, PartialEq, Eq)]
pub enum DecodeRefusal {
    Region,
    Lanes,
    ConfigurationType,
}

impl Refusal for DecodeRefusal {
    ghost cause = { decode_cause };

    fn number(&self) -> u8 {
        match self {
            DecodeRefusal::Region => 11,
            DecodeRefusal::Lanes => 12,
            DecodeRefusal::ConfigurationType => 13,
        }
    }
}

// The enabled lanes outside dense memory: as many as the length, from the first lane on.
fn lanes_of(cpu: u64) -> Result<u8, DecodeRefusal>
    ensures { result ≡ (if lanes_allowed cpu then Ok (sparse_lanes cpu) else Err DecodeRefusal.Lanes) }
{
    let count = (cpu >> 3) % 4 + 1;
    let first = (cpu >> 5) % 4;
    if cpu % 8 != 0 || count + first > 4 {
        return Err(DecodeRefusal::Lanes);
    }
    Ok(((1 << count) - 1) << first)
}

// The bit that selects a device, for one of 21.
fn device_bit(device: u32) -> u32
    requires { device < 2 ^ 5 }
    ensures value { result ≡ device_bit device }
    ensures bound { result ≤ 2 ^ 31 }
{
    if device <= 20 { 1 << (11 + device) } else { 0 }
}

fn dense(cpu: u64) -> Result<Cycle, DecodeRefusal>
    ensures { answered cycle_values decode_cause result ≡ decoded_dense cpu }
{
    if cpu % 4 != 0 {
        return Err(DecodeRefusal::Lanes);
    }
    Ok(Cycle {
        space: Space::DenseMemory,
        pci: (cpu % 0x1_0000_0000) as u32,
        lanes: 15,
    })
}

fn sparse_io(cpu: u64) -> Result<Cycle, DecodeRefusal>
    ensures { answered cycle_values decode_cause result ≡ unless_lanes cpu (decoded Space.SparseIo (sparse_io_address cpu) (sparse_lanes cpu)) }
{
    let lanes = lanes_of(cpu)?;
    Ok(Cycle {
        space: Space::SparseIo,
        pci: ((cpu >> 5) % 0x100_0000) as u32,
        lanes,
    })
}

// The address of a configuration access of type 0: one bit selects the device.
fn type_0_address(cpu: u64) -> u32
    ensures { result ≡ configuration_0_address cpu }
{
    device_bit(((cpu >> 16) % 32) as u32) + ((cpu >> 7) % 0x200) as u32 * 4
}

impl Registers {
    fn sparse_memory_address(&self, cpu: u64) -> u32
        ensures { result ≡ sparse_memory_address self.now cpu }
    {
        let low = ((cpu >> 7) % 0x200_0000) as u32 * 4;
        if (cpu >> 29) % 8 == 0 {
            low
        } else {
            (self.haxr1() >> 27) % 32 * 0x800_0000 + low
        }
    }

    fn sparse_memory(&self, cpu: u64) -> Result<Cycle, DecodeRefusal>
        ensures { answered cycle_values decode_cause result ≡ unless_lanes cpu (decoded Space.SparseMemory (sparse_memory_address self.now cpu) (sparse_lanes cpu)) }
    {
        let lanes = lanes_of(cpu)?;
        Ok(Cycle {
            space: Space::SparseMemory,
            pci: self.sparse_memory_address(cpu),
            lanes,
        })
    }

    fn configuration(&self, cpu: u64) -> Result<Cycle, DecodeRefusal>
        ensures { answered cycle_values decode_cause result ≡ unless_lanes cpu (decoded_configuration cpu (bits 1 0 self.now.haxr2)) }
    {
        let lanes = lanes_of(cpu)?;
        let pci = match self.haxr2() % 4 {
            0 => type_0_address(cpu),
            1 => ((cpu >> 7) % 0x40_0000) as u32 * 4 + 1,
            _ => return Err(DecodeRefusal::ConfigurationType),
        };
        Ok(Cycle {
            space: Space::Configuration,
            pci,
            lanes,
        })
    }

    fn decode(&self, cpu: u64) -> Result<Cycle, DecodeRefusal>
        ensures { answered cycle_values decode_cause result ≡ decode_answer self.now cpu }
    {
        match cpu {
            0x2_0000_0000..=0x2_ffff_ffff => self.sparse_memory(cpu),
            0x3_0000_0000..=0x3_ffff_ffff => dense(cpu),
            0x1_c000_0000..=0x1_dfff_ffff => sparse_io(cpu),
            0x1_e000_0000..=0x1_ffff_ffff => self.configuration(cpu),
            _ => Err(DecodeRefusal::Region),
        }
    }
}

impl<M: Memory> Bridge<M> {
    // The cycle on the PCI bus that a processor address stands for. Refuses an address of no region with 11, a length, first lane or
    // low bits that are not allowed with 12, a configuration access that HAXR2 does not allow with 13.
    pub fn decode(&self, cpu: u64) -> Result<Cycle, DecodeRefusal>
        ensures { answered cycle_values decode_cause result ≡ (performed (state_of M.Memory.content self.now) (processor (decode cpu))).answer }
    {
        self.registers.decode(cpu)
    }
}
