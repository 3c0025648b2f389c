// A session: one form to a line of the input, one reply to a line of the output.
#![tactic(auto)]

mod forms;
mod input;
mod lexer;
mod numbers;
mod quadwords;
mod replies;
mod serve;
mod session;

use serve::serve;
use session::Session;
use std::io::{BufReader, LineWriter};
use std::{io, mem};

fn main(rt: HostRuntime) -> io::Result<()> {
    let mut session = Session::new(rt.alloc())?;
    let input = BufReader::new(rt.alloc(), rt.stdin())?;
    let mut output = LineWriter::new(rt.alloc(), rt.stdout())?;
    let served = serve(rt.alloc(), &mut session, input, &mut output);
    if served.is_err() {
        // A dropped writer would try once more to write a reply that it could not write.
        mem::forget(output);
    }
    served
}
