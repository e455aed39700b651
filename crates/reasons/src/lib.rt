// What a refusal means, in words, put into a lent buffer.
#![tactic(auto)]

ghost use Rattle.std.specs.Prelude.{◌≡◌};
ghost use Rattle.text.specs.Spots.{spot, lay};
ghost use Rattle.reasons.specs.Rows.{Begins, Ends, line};
ghost use Rattle.reasons.specs.Reasons.{meaning, refused_line};

use format::PsbtError;
use text::{put, put_decimal};

// A line for each refusal, by its number; line 0 is empty.
const MEANINGS: [u8; 666] = *b"
this is no signing file
bytes are missing, or left over at the end
a count has bytes left over
a reason not in use
a key stands twice
a key stands below the one before it
a field has a wrong length
a count or a version is missing
a reason not in use
a reason not in use
a reason not in use
a reason not in use
the file is not of version 2
there is no such map
a reason not in use
a reason not in use
an output has no script
a silent payment breaks its rules
the scripts set do not fit
a reason not in use
the file is longer than 65536 bytes
the file has more than 1024 pairs
the file has more than 256 maps
a table does not fit the file
the transaction is too long
";

// Where line number `n` begins: at the text's end where there is none.
fn line_start(text: &[u8], n: u8) -> usize
    ensures { Begins text.now n result }
{
    let mut left = n;
    for (i, byte) in text.iter().enumerate() {
        if left == 0 {
            return i;
        }
        if *byte == b'\n' {
            left -= 1;
        }
    }
    text.len()
}

// How long the first line is.
fn line_len(text: &[u8]) -> usize
    ensures { Ends text.now result }
{
    for (i, byte) in text.iter().enumerate() {
        if *byte == b'\n' {
            return i;
        }
    }
    text.len()
}

// Line number `n`, without its end.
fn line(text: &[u8], n: u8) -> &[u8]
    ensures { result.now ≡ line n text.now }
{
    let start = line_start(text, n);
    let rest = &text[start..];
    let len = line_len(rest);
    &rest[..len]
}

// What a refusal means, in words.
pub fn put_meaning(out: &mut [u8], at: usize, e: PsbtError) -> usize
    ensures { spot result out.new ≡ lay (spot at out.old) (meaning e) }
{
    put(out, at, line(&MEANINGS, e.number()))
}

// `refused N: ..`
pub fn put_refused(out: &mut [u8], at: usize, e: PsbtError) -> usize
    ensures { spot result out.new ≡ lay (spot at out.old) (refused_line e) }
{
    let to = put(out, at, b"refused ");
    let to = put_decimal(out, to, e.number() as u64);
    let to = put(out, to, b": ");
    let to = put_meaning(out, to, e);
    put(out, to, b"\n")
}
