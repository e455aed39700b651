// Reads a file from standard input and writes to standard output what it asks of the lock and what was decided.
#![tactic(auto)]

use std::io;
use why_text::why_input;

// From standard input to standard output.
fn main(rt: HostRuntime) -> io::Result<()> {
    why_input(&mut rt.stdin(), &mut io::writer(&rt))
}
