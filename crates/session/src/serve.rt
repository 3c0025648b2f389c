// An input answered line by line.
ghost use Rattle.std.specs.Prelude.{OnOk};
ghost use Rattle.std.specs.Io.KnownBytes.{Appends};
ghost use Rattle.session.specs.InputLines.{line_given};
ghost use Rattle.session.specs.Serving.{InputServed, LineServed, printed};

use crate::input::{InputLine, LineCutter};
use crate::replies::Reply;
use crate::session::Session;
use std::alloc::Global;
use std::io;
use std::io::{Read, Write};

// Prints a reply, and the byte that ends its line.
fn print_reply<W: Write>(reply: &Reply, output: &mut W) -> io::Result<()>
    ensures { OnOk result (Appends (W.contents output.old) (W.contents output.new) (printed reply.now)) }
{
    writeln!(output, "{reply}")
}

// Answers a line of the input by a line of the output.
fn serve_line<W: Write>(
    heap: Global,
    session: &mut Session,
    line: InputLine,
    output: &mut W,
) -> io::Result<()>
    ensures { OnOk result (LineServed session.old (line_given line) (W.contents output.old) (W.contents output.new) session.new) }
{
    let reply = session.answer_input(heap, &line)?;
    print_reply(&reply, output)
}

// Answers each line of an input by a line of the output. Where the input's bytes are known, it is read to its end.
pub fn serve<R: Read + Drop, W: Write>(
    heap: Global,
    session: &mut Session,
    input: R,
    output: &mut W,
) -> io::Result<()>
    ensures { OnOk result (InputServed session.old (R.remaining input) (W.contents output.old) (W.contents output.new) session.new) }
{
    let mut cutter = LineCutter::new(heap);
    for byte in input.bytes() {
        if let Some(line) = cutter.feed(heap, byte?)? {
            serve_line(heap, session, line, output)?;
        }
    }
    if let Some(line) = cutter.finish() {
        serve_line(heap, session, line, output)?;
    }
    Ok(())
}
