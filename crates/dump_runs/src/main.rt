// Writes the dumps of the stored files that its arguments name, one after the other, to standard output.
#![tactic(auto)]

use dump_text::dump_input;
use std::fs::File;
use std::{env, io};

// The dump of the file at `path`.
fn dump_of(rt: &HostRuntime, path: &str) -> io::Result<()> {
    let mut file = File::open(rt, path)?;
    dump_input(&mut file, &mut io::writer(rt))
}

// Kept: `why_runs` is the same but for one call; to share these lines would take a third crate and a function as an argument.
// The dumps of all files that are named, in their order. A file that can't be read is said on standard error, and the run goes on; it
// ends with the last such error.
fn main(rt: HostRuntime) -> io::Result<()> {
    let mut ended = Ok(());
    for path in env::args(&rt)?.skip(1) {
        if let Err(e) = dump_of(&rt, path.as_str()) {
            eprintln!(rt; "{}: {}", path, e)?;
            ended = Err(e);
        }
    }
    ended
}
