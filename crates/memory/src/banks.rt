// Banks of memory, and the checks of a list of them.
ghost use Rattle.std.specs.Prelude.{◌≡◌, ℕ, ◌+◌, ◌^◌, ◌<◌, ◌≤◌, [], ◌∷◌, length, take, nat_le, slice_index};
ghost use Rattle.std.specs.Result.{result_err};
ghost use Rattle.memory.specs.Banks.{apart, bank_fault, clear, holds, list_cause, list_fault, size_fits, total};
ghost use Rattle.memory.specs.Guesses.{SmallestBits, guess, has_block};
ghost use Rattle.memory.specs.Rows.{first_index};

use crate::refusals::Refusal;
use crate::rows::Row;

// A bank holds the addresses from its base up to base + size.
#[derive(Clone, Copy, Debug, Default, PartialEq, Eq)]
pub struct Bank {
    pub base: u64,
    pub size: u64,
}

// What is wrong with one bank of a list, in the order of the checks.
#[derive(Clone, Copy, Debug, PartialEq, Eq)]
pub enum BankFault {
    Size,
    Base,
    End,
    Overlap,
}

// Why a list of banks is refused: its count, a bank by its index, or the total of the sizes.
#[derive(Clone, Copy, Debug, PartialEq, Eq)]
pub enum BankListRefusal {
    Count,
    Bank(usize, BankFault),
    Total,
}

impl Refusal for BankListRefusal {
    ghost cause = { list_cause };

    fn number(&self) -> u8 {
        16
    }
}

impl BankListRefusal {
    // The index of the bank at fault, or 8 for the count or the total.
    pub fn index(&self) -> usize
        ensures { list_cause self.now ≡ record { number = 16; values = result ∷ [] } }
    {
        match self {
            BankListRefusal::Count | BankListRefusal::Total => 8,
            BankListRefusal::Bank(i, _) => *i,
        }
    }
}

// No memory has an address from here up.
const END: u64 = 0x1_8000_0000;

// A list has at most this many banks.
const MOST: usize = 8;

impl Row for Bank {
    ghost answers = { holds };

    fn answers(&self, address: u64) -> bool {
        self.base <= address && address - self.base < self.size
    }
}

impl Bank {
    fn size_fits(&self) -> bool
        ensures { result ≡ size_fits self.now.size }
    {
        self.size.is_power_of_two() && (0x2000..=0x4000_0000).contains(&self.size)
    }

    // Whether the bank ends at the address, or before it. An end that does not fit 64 bits is above every address.
    fn ends_by(&self, address: u64) -> bool
        ensures { result ≡ nat_le (self.now.base + self.now.size) address }
    {
        self.base
            .checked_add(self.size)
            .is_some_and(|end| end <= address)
    }

    fn is_apart(&self, other: &Bank) -> bool
        ensures { result ≡ apart self.now other.now }
    {
        self.ends_by(other.base) || other.ends_by(self.base)
    }

    // Whether the bank, cut into blocks of 2^shift bytes, has one whose number ends in the six bits of k.
    #[tactic(auto, using(crate::proofs::Blocks::ends_by_distance))]
    fn has_block(&self, shift: u32, k: u64) -> bool
        requires { (shift < 64) × (k < 64) }
        ensures { result ≡ has_block shift k self.now }
    {
        let first = self.base >> shift;
        k.wrapping_sub(first) % 64 < self.size >> shift
    }

    fn is_clear_of(&self, before: &[Bank]) -> bool
        ensures { result ≡ clear before.now self.now }
    {
        before.iter().all(|other| other.is_apart(self))
    }

    // Checks the bank behind those before it.
    fn check_behind(&self, before: &[Bank]) -> Result<(), BankFault>
        ensures { result_err result ≡ bank_fault before.now self.now }
    {
        if !self.size_fits() {
            return Err(BankFault::Size);
        }
        if !self.base.is_multiple_of(self.size) {
            return Err(BankFault::Base);
        }
        if self.base > END - self.size {
            return Err(BankFault::End);
        }
        if !self.is_clear_of(before) {
            return Err(BankFault::Overlap);
        }
        Ok(())
    }
}

// Checks a list of banks for n bytes: the count, then each bank, then the total.
pub(crate) fn check(banks: &[Bank], n: usize) -> Result<(), BankListRefusal>
    ensures { result_err result ≡ list_fault banks.now n }
{
    if !(1..=MOST).contains(&banks.len()) {
        return Err(BankListRefusal::Count);
    }
    for (i, bank) in banks.iter().enumerate() {
        bank.check_behind(&banks[..i])
            .map_err(|fault| BankListRefusal::Bank(i, fault))?;
    }
    if bytes_of(banks) > n {
        return Err(BankListRefusal::Total);
    }
    Ok(())
}

// The bytes of all the banks.
pub(crate) fn bytes_of(banks: &[Bank]) -> usize
    requires { total banks.now < 2 ^ 64 }
    ensures { result ≡ total banks.now }
{
    banks.iter().map(|bank| bank.size as usize).sum()
}

// Where the bytes of each bank begin, the banks laid one behind the other.
pub(crate) fn starts_of(banks: &[Bank]) -> [usize; 8]
    requires { (length banks.now ≤ 8) × (total banks.now < 2 ^ 64) }
    ensures { (k : ℕ) → k < length banks.now → slice_index result k ≡ total (take k banks.now) }
{
    let mut starts = [0; 8];
    let mut start = 0;
    for (i, bank) in banks.iter().enumerate() {
        starts[i] = start;
        start += bank.size as usize;
    }
    starts
}

// How many bits an address has within the smallest bank.
pub(crate) fn smallest_bits(banks: &[Bank]) -> u32
    ensures { SmallestBits banks.now result }
{
    banks
        .iter()
        .map(|bank| bank.size.trailing_zeros())
        .min()
        .unwrap_or(0)
}

// The first bank that has a block of 2^shift bytes whose number ends in the six bits of k.
fn first_with_block(banks: &[Bank], shift: u32, k: u64) -> Option<usize>
    requires { (shift < 64) × (k < 64) }
    ensures { result ≡ first_index (has_block shift k) banks.now }
{
    banks.iter().position(|bank| bank.has_block(shift, k))
}

// The guess for each number of six bits.
pub(crate) fn guesses_of(banks: &[Bank], shift: u32) -> [usize; 64]
    requires { shift < 64 }
    ensures { (k : ℕ) → k < 64 → slice_index result k ≡ guess banks.now shift k }
{
    let mut guesses = [0; 64];
    for (k, guess) in guesses.iter_mut().enumerate() {
        *guess = first_with_block(banks, shift, k as u64).unwrap_or(0);
    }
    guesses
}
