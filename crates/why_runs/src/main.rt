// Writes the texts of the stored files that its arguments name, one after the other, to standard output.
#![tactic(auto)]

use std::fs::File;
use std::{env, io};
use why_text::why_input;

// The text of the file at `path`.
fn text_of(rt: &HostRuntime, path: &str) -> io::Result<()> {
    let mut file = File::open(rt, path)?;
    why_input(&mut file, &mut io::writer(rt))
}

// Kept: `dump_runs` is the same but for one call, and says why it stands apart.
// The texts of all files that are named, in their order. A file that can't be read is said on standard error, and the run goes on; it
// ends with the last such error.
fn main(rt: HostRuntime) -> io::Result<()> {
    let mut ended = Ok(());
    for path in env::args(&rt)?.skip(1) {
        if let Err(e) = text_of(&rt, path.as_str()) {
            eprintln!(rt; "{}: {}", path, e)?;
            ended = Err(e);
        }
    }
    ended
}
