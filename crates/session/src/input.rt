// The input cut into lines, byte by byte. That a line is too long is remembered, and its bytes are not kept.
ghost use Rattle.std.specs.Prelude.{◌≡◌, [], IfOk, OnErr, OnOk};
ghost use Rattle.session.specs.InputLines.{CutAtEnds, fed, given, held, kept, last_line, lines_given, taken};

use crate::forms::LONGEST_LINE;
use std::alloc::{AllocError, Global};
use std::mem;

// A line of more than `LONGEST_LINE` bytes, which are not kept.
#[derive(Clone, Copy)]
pub struct TooLong;

// A line of the input, without the byte that ends it.
pub type InputLine = Result<Vec<u8>, TooLong>;

// Cuts an input into lines. It holds the line that has begun.
#[derive(Drop)]
pub struct LineCutter {
    line: InputLine,
}

impl LineCutter {
    // The beginning of an input.
    pub fn new(heap: Global) -> LineCutter
        ensures { held result ≡ kept [] }
    {
        LineCutter {
            line: Ok(Vec::new(heap)),
        }
    }

    // Takes a byte of the line.
    fn take(&mut self, byte: u8) -> Result<(), AllocError>
        ensures taken { OnOk result (held self.new ≡ taken (held self.old) byte) }
        ensures unchanged { OnErr result (held self.new ≡ held self.old) }
    {
        match &mut self.line {
            Ok(bytes) if bytes.len() < LONGEST_LINE => bytes.push(byte)?,
            Ok(_) => self.line = Err(TooLong),
            Err(TooLong) => {}
        }
        Ok(())
    }

    // Takes the next byte of the input, and gives the line that it ends.
    pub fn feed(&mut self, heap: Global, byte: u8) -> Result<Option<InputLine>, AllocError>
        ensures fed { IfOk result (λ line. given (held self.new) line ≡ fed (held self.old) byte) }
        ensures unchanged { OnErr result (held self.new ≡ held self.old) }
    {
        if byte == b'\n' {
            let line = mem::replace(&mut self.line, Ok(Vec::new(heap)));
            return Ok(Some(line));
        }
        self.take(byte)?;
        Ok(None)
    }

    // The last line, where no byte ended it.
    pub fn finish(self) -> Option<InputLine>
        ensures { lines_given result ≡ last_line (held self) }
    {
        match self.line {
            Ok(bytes) if bytes.is_empty() => None,
            line => Some(line),
        }
    }
}

// What the cutter gives for an input: its lines, which joined again are the input.
pub fn lines_join_to_the_input()
    ensures { CutAtEnds }
{}
