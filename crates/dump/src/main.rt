// Reads a file from standard input and writes its dump to standard output.
#![tactic(auto)]

use dump_text::dump_input;
use std::io;

// From standard input to standard output.
fn main(rt: HostRuntime) -> io::Result<()> {
    dump_input(&mut rt.stdin(), &mut io::writer(&rt))
}
