// A list of banks that the checks have passed: it exists only by its constructor.
ghost use Rattle.std.specs.Prelude.{◌≡◌, ℕ, ◌^◌, ◌<◌, ◌≤◌, length, take, None, IfOk, slice_index};
ghost use Rattle.std.specs.Result.{result_err};
ghost use Rattle.memory.specs.Answers.{answered, no_values};
ghost use Rattle.memory.specs.Banks.{BankListsJudged, holds, list_answer, list_cause, list_fault, total};
ghost use Rattle.memory.specs.Guesses.{GuessesRight, SmallestBits, guess};
ghost use Rattle.memory.specs.Rows.{Finds};

use crate::banks::{Bank, BankListRefusal, check, guesses_of, smallest_bits, starts_of};
use crate::rows::{Row, find};

// One to eight banks, laid one behind the other in `room` bytes, with the place where each begins there. An array with its count is
// `Copy`, and allocates nothing.
#[derive(Clone, Copy)]
pub struct BankList {
    banks: [Bank; 8],
    starts: [usize; 8],
    count: usize,
    room: usize,
    // Which bank is guessed for an address, by six bits of it from `shift` up: it is looked at before the others, and may be the wrong
    // one.
    guesses: [usize; 64],
    shift: u32,
    ghost few: { count ≤ 8 },
    ghost behind: { (k : ℕ) → k < count → slice_index starts k ≡ total (take k banks) },
    ghost faultless: { list_fault (take count banks) room ≡ None },
    ghost narrow: { room < 2 ^ 64 },
    ghost blocks: { SmallestBits (take count banks) shift },
    ghost guessed: { (k : ℕ) → k < 64 → slice_index guesses k ≡ guess (take count banks) shift k },
}

impl BankList {
    ghost use Rattle.memory.specs.Layers.{banks_of};

    // Takes the banks just where the rules admit them for n bytes; a refusal makes no list.
    pub fn new(banks: &[Bank], n: usize) -> Result<BankList, BankListRefusal>
        ensures answer { answered no_values list_cause result ≡ list_answer banks.now n }
        ensures fault { result_err result ≡ list_fault banks.now n }
        ensures held { IfOk result (λ l. (banks_of l ≡ banks.now) × (l.room ≡ n)) }
    {
        check(banks, n)?;
        let starts = starts_of(banks);
        let shift = smallest_bits(banks);
        let count = banks.len();
        let mut kept = [Bank::default(); 8];
        kept[..count].copy_from_slice(banks);
        Ok(BankList {
            banks: kept,
            starts,
            count,
            room: n,
            guesses: guesses_of(banks, shift),
            shift,
        })
    }

    // The answer to every list is the one that the rules ask for.
    pub fn judged_by_the_rules()
        ensures { BankListsJudged }
    {}

    // An address is guessed right by the table if no bank before its own has a block of the smallest bank's size with the same six
    // bits.
    pub fn guesses_right(&self)
        ensures { GuessesRight (banks_of self.now) self.now.shift self.now.guesses }
    {}

    // The banks that were given, in their order.
    pub(crate) fn as_slice(&self) -> &[Bank]
        ensures { result.now ≡ banks_of self.now }
    {
        &self.banks[..self.count]
    }

    // The index of the bank that holds an address, if one does. Mostly it is the one that was guessed, and no other can hold it too.
    #[inline(always)]
    pub(crate) fn find(&self, address: u64) -> Option<usize>
        ensures { Finds (λ bank. holds bank address) (banks_of self.now) result }
    {
        let banks = self.as_slice();
        let guess = self.guesses[(address.wrapping_shr(self.shift) % 64) as usize];
        if guess < banks.len() && banks[guess].answers(address) {
            return Some(guess);
        }
        find(banks, address)
    }

    // Where the bytes of a bank begin among those of all banks.
    pub(crate) fn start(&self, i: usize) -> usize
        requires { i < length (banks_of self.now) }
        ensures { result ≡ total (take i (banks_of self.now)) }
    {
        self.starts[i]
    }

    // The bytes that the list was made for.
    pub(crate) fn room(&self) -> usize
        ensures { result ≡ self.now.room }
    {
        self.room
    }
}
