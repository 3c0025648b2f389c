// The tokens of a line. A word borrows its bytes from the line.
ghost use Rattle.std.specs.Prelude.{◌≡◌, ◌+◌, ◌<◌, ◌≤◌, length, take, drop};
ghost use Rattle.session.specs.Steps.{Cuts, Starts, Taken, WordEnds};
ghost use Rattle.session.specs.Tokens.{WordBytes, is_opening, lexeme, word_byte};
ghost use Rattle.session.specs.declared.lexer.LineError.TheVariants.{Malformed, NoMemory};

use std::alloc::{AllocFailed, Global};
use std::num::TryFromIntError;

// A parenthesis or a word, with the offset of its first byte.
#[derive(Clone, Copy)]
pub enum Token<'a> {
    Open(usize),
    Close(usize),
    Word(&'a [u8], usize),
}

impl Token<'_> {
    fn is_open(self) -> bool
        ensures { result ≡ is_opening (lexeme self.entry) }
    {
        matches!(self, Token::Open(_))
    }
}

// Why nothing is read of a line: it is malformed, or there is no memory to read it with.
#[derive(Drop)]
pub enum LineError {
    Malformed,
    NoMemory,
}

impl<T: Drop> From<AllocFailed<T>> for LineError {
    ghost from_gives = { λ _ e. e ≡ NoMemory };

    fn from(_: AllocFailed<T>) -> LineError {
        LineError::NoMemory
    }
}

// The number of a word is too large for its type.
impl From<TryFromIntError> for LineError {
    ghost from_gives = { λ _ e. e ≡ Malformed };

    fn from(_: TryFromIntError) -> Self {
        Self::Malformed
    }
}

fn is_word_byte(b: u8) -> bool
    ensures { result ≡ word_byte b }
{
    b != b' ' && b != b'(' && b != b')'
}

// How many bytes of a word stand from `at` on.
fn word_len(line: &[u8], at: usize) -> usize
    requires { at ≤ length line.now }
    ensures within { at + result ≤ length line.now }
    ensures all { WordBytes (take result (drop at line.now)) }
    ensures stops { WordEnds (drop (at + result) line.now) }
{
    line[at..].iter().take_while(|b| is_word_byte(**b)).count()
}

// Where the token at `at` begins: behind one space, unless it is the first.
fn start_of(line: &[u8], at: usize, first: bool) -> Option<usize>
    requires { at < length line.now }
    ensures { Starts line.now at first result }
{
    if first {
        return Some(at);
    }
    if line[at] == b' ' { Some(at + 1) } else { None }
}

// The token that comes at `at`, with the offset where it ends.
fn token_at(line: &[u8], at: usize, first: bool) -> Option<(Token<'_>, usize)>
    requires { at < length line.now }
    ensures { Taken line.now at first result }
{
    if line[at] == b')' {
        return Some((Token::Close(at), at + 1));
    }
    let start = start_of(line, at, first)?;
    if line.get(start) == Some(&b'(') {
        return Some((Token::Open(start), start + 1));
    }
    let n = word_len(line, start);
    if n == 0 {
        return None;
    }
    Some((Token::Word(&line[start..start + n], start), start + n))
}

// The tokens of a line. Words and pairs stand one space apart, with no space after an opening or before a closing
// parenthesis; any other line is malformed.
pub fn tokens(heap: Global, line: &[u8]) -> Result<Vec<Token<'_>>, LineError>
    ensures { Cuts line.now result }
{
    let mut out = Vec::new(heap);
    let mut at = 0;
    let mut first = true;
    // A turn takes a token, and finds where it ends.
    while at < line.len() {
        let (token, end) = token_at(line, at, first).ok_or(LineError::Malformed)?;
        out.push(token)?;
        first = token.is_open();
        at = end;
    }
    Ok(out)
}
