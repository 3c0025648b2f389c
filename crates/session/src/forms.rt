// The forms of a session, and how a line is read as one.
ghost use Rattle.std.specs.Prelude.{◌≡◌, ℕ, map};
ghost use Rattle.session.specs.FormLines.{EachSpelled};
ghost use Rattle.session.specs.Forms.{ArgsParsed, Ends, Means, Named, Once, One, Pairs, Parsed, Spells, Two, asked, pair_of};
ghost use Rattle.session.specs.Hex.{Reads};
ghost use Rattle.session.specs.Tokens.{lexemes};

use crate::lexer::Token::{Close, Open, Word};
use crate::lexer::{LineError, Token, tokens};
use crate::numbers::number;
use std::alloc::Global;

// A longer line is no form.
pub const LONGEST_LINE: usize = 256;

#[derive(Clone, Copy)]
enum Name {
    CpuStore,
    CpuLoad,
    Mark,
    RegRead,
    RegWrite,
    Pci,
    Log,
    LogClear,
    CardRead,
    CardWrite,
}

// A longword of a card write, with the number that enables its bytes. Over 15 the burst is refused, not the line.
#[derive(Clone, Copy)]
pub struct Pair {
    pub longword: u32,
    pub enables: u64,
}

// What a line asks for.
#[derive(Drop)]
pub enum Form {
    CpuStore { address: u64, value: u64 },
    CpuLoad { address: u64 },
    Mark { line: u64 },
    RegRead { register: u64 },
    RegWrite { register: u64, value: u32 },
    Pci { address: u64 },
    Log,
    LogClear,
    CardRead { pci: u32, count: u64 },
    CardWrite { pci: u32, pairs: Vec<Pair> },
}

// A type of the numbers of a form: `u64` for a quadword, `u32` for a longword.
trait FromWord: Copy {
    ghost bits: { ℕ };

    ghost value: { Self → ℕ };

    // The number that a word writes, where it fits the type.
    fn from_word(word: &[u8]) -> Result<Self, LineError>
        ensures { Parsed value result (Reads bits word.now) };
}

impl FromWord for u64 {
    ghost bits = { 64 };

    ghost value = { λ n. n };

    fn from_word(word: &[u8]) -> Result<u64, LineError> {
        number(word).ok_or(LineError::Malformed)
    }
}

impl FromWord for u32 {
    ghost bits = { 32 };

    ghost value = { λ n. n };

    fn from_word(word: &[u8]) -> Result<u32, LineError> {
        let quadword = u64::from_word(word)?;
        Ok(u32::try_from(quadword)?)
    }
}

impl TryFrom<&[u8]> for Name {
    type Error = LineError;

    ghost try_from_gives = { λ word outcome. Named word.now outcome };

    fn try_from(word: &[u8]) -> Result<Name, LineError> {
        match word {
            b"cpu-store" => Ok(Name::CpuStore),
            b"cpu-load" => Ok(Name::CpuLoad),
            b"mark" => Ok(Name::Mark),
            b"reg-read" => Ok(Name::RegRead),
            b"reg-write" => Ok(Name::RegWrite),
            b"pci" => Ok(Name::Pci),
            b"log" => Ok(Name::Log),
            b"log-clear" => Ok(Name::LogClear),
            b"card-read" => Ok(Name::CardRead),
            b"card-write" => Ok(Name::CardWrite),
            _ => Err(LineError::Malformed),
        }
    }
}

// No number: the form ends behind its name.
fn no_numbers(arguments: &[Token]) -> Result<(), LineError>
    ensures { Parsed (λ n. n) result (λ _. Ends (lexemes arguments.now)) }
{
    match arguments {
        [Close(_)] => Ok(()),
        _ => Err(LineError::Malformed),
    }
}

// The only number of a form.
fn one_number<A: FromWord>(arguments: &[Token]) -> Result<A, LineError>
    ensures { Parsed A.value result (One A.bits (lexemes arguments.now)) }
{
    let [Word(a, _), Close(_)] = arguments else {
        return Err(LineError::Malformed);
    };
    A::from_word(a)
}

// The two numbers of a form.
fn two_numbers<A: FromWord, B: FromWord>(arguments: &[Token]) -> Result<(A, B), LineError>
    ensures { Parsed (λ p. (A.value p.0, B.value p.1)) result (Two A.bits B.bits (lexemes arguments.now)) }
{
    let [Word(a, _), Word(b, _), Close(_)] = arguments else {
        return Err(LineError::Malformed);
    };
    Ok((A::from_word(a)?, B::from_word(b)?))
}

// The pair of two words.
fn read_pair(longword: &[u8], enables: &[u8]) -> Result<Pair, LineError>
    ensures { Parsed pair_of result (λ p. Reads 32 longword.now p.0 × Reads 64 enables.now p.1) }
{
    Ok(Pair {
        longword: u32::from_word(longword)?,
        enables: u64::from_word(enables)?,
    })
}

// The pairs of a card write, up to the end of the form.
fn read_pairs(heap: Global, tokens: &[Token]) -> Result<Vec<Pair>, LineError>
    ensures { Parsed (λ v. map pair_of v.items) result (Pairs (lexemes tokens.now)) }
{
    let mut pairs = Vec::new(heap);
    let mut rest = tokens;
    while let [
        Open(_),
        Word(longword, _),
        Word(enables, _),
        Close(_),
        more @ ..,
    ] = rest
    {
        pairs.push(read_pair(longword, enables)?)?;
        rest = more;
    }
    match rest {
        [Close(_)] => Ok(pairs),
        _ => Err(LineError::Malformed),
    }
}

// A card write: a PCI address and pairs.
fn card_write(heap: Global, arguments: &[Token]) -> Result<Form, LineError>
    ensures { ArgsParsed Name.CardWrite (lexemes arguments.now) result }
{
    let [Word(pci, _), pairs @ ..] = arguments else {
        return Err(LineError::Malformed);
    };
    let pci = u32::from_word(pci)?;
    let pairs = read_pairs(heap, pairs)?;
    Ok(Form::CardWrite { pci, pairs })
}

// The form of a name, with what stands behind the name.
fn read_arguments(heap: Global, name: Name, arguments: &[Token]) -> Result<Form, LineError>
    ensures { ArgsParsed name (lexemes arguments.now) result }
{
    match name {
        Name::CpuStore => two_numbers(arguments).map(|(address, value)| Form::CpuStore {
            address,
            value,
        }),
        Name::CpuLoad => one_number(arguments).map(|address| Form::CpuLoad { address }),
        Name::Mark => one_number(arguments).map(|line| Form::Mark { line }),
        Name::RegRead => one_number(arguments).map(|register| Form::RegRead { register }),
        Name::RegWrite => two_numbers(arguments).map(|(register, value)| Form::RegWrite {
            register,
            value,
        }),
        Name::Pci => one_number(arguments).map(|address| Form::Pci { address }),
        Name::Log => no_numbers(arguments).map(|()| Form::Log),
        Name::LogClear => no_numbers(arguments).map(|()| Form::LogClear),
        Name::CardRead => two_numbers(arguments).map(|(pci, count)| Form::CardRead { pci, count }),
        Name::CardWrite => card_write(heap, arguments),
    }
}

// The form that the tokens of a line spell.
fn form_of(heap: Global, tokens: &[Token]) -> Result<Form, LineError>
    ensures { Parsed asked result (Means (lexemes tokens.now)) }
{
    let [Open(_), Word(word, _), arguments @ ..] = tokens else {
        return Err(LineError::Malformed);
    };
    let name = Name::try_from(*word)?;
    read_arguments(heap, name, arguments)
}

// The form that a line spells. The line is malformed just where it spells none.
pub fn read_form(heap: Global, line: &[u8]) -> Result<Form, LineError>
    ensures { Parsed asked result (Spells line.now) }
{
    if line.len() > LONGEST_LINE {
        return Err(LineError::Malformed);
    }
    let all = tokens(heap, line)?;
    form_of(heap, all.as_slice())
}

// A line spells one form at most, so what `read_form` answers is the only answer.
pub fn spelled_once()
    ensures { Once }
{}

// Each form whose numbers fit and whose line is short enough has a line that spells it.
pub fn each_spelled()
    ensures { EachSpelled }
{}
