// What the programs that print a file's text have room for, the memory that they lend, and reading and writing.
#![tactic(auto)]

ghost use Rattle.std.specs.Prelude.{◌≡◌, ◌≤◌, ◌<◌, ◌+◌, ◌*◌, length, take, ℕ, List, IfOk, IfSome, OnOk, OnErr};
ghost use Rattle.std.specs.Io.KnownBytes.{Consumes, IsAtEnd, Appends};
ghost use Rattle.format.specs.Entries.{pair_words, map_words};
ghost use Rattle.rooms.specs.Limits.{longest, most_pairs, most_maps};
ghost use Rattle.rooms.specs.Rooms.{pair_room, map_room, tx_room};

use std::io::{self, ErrorKind, Read, Write};

// The longest file that is read, in bytes.
pub const LONGEST: usize = 65_536;

// The most pairs.
const PAIRS: usize = 1_024;

// How many numbers a pair's entry takes.
const PAIR_WORDS: usize = 4;

// The most maps.
const MAPS: usize = 256;

// How many numbers a map's entry takes.
const MAP_WORDS: usize = 2;

// A table with room for the most pairs.
pub fn pair_room() -> [u32; PAIRS * PAIR_WORDS]
    ensures value { result ≡ pair_room }
    ensures pair_words_value { most_pairs * pair_words ≡ length result }
{
    [0; PAIRS * PAIR_WORDS]
}

// A table with room for the most maps.
pub fn map_room() -> [u32; MAPS * MAP_WORDS]
    ensures value { result ≡ map_room }
    ensures map_words_value { most_maps * map_words ≡ length result }
{
    [0; MAPS * MAP_WORDS]
}

// Room for a transaction as long as the longest file.
pub fn tx_room() -> [u8; LONGEST]
    ensures value { result ≡ tx_room }
    ensures longest_value { longest ≡ length result }
{
    [0; LONGEST]
}

// Room for the longest file and a byte more.
pub fn file_room() -> [u8; LONGEST + 1]
    ensures { longest + 1 ≡ length result }
{
    [0; LONGEST + 1]
}

// Reads until `room` is full or the input ends, and answers how many bytes stand at its front. The error is that of the
// read that failed: what was read before it stands there too, but isn't counted.
pub fn read_full<R: Read>(from: &mut R, room: &mut [u8]) -> io::Result<usize>
    ensures bound { IfOk result (λ n. n ≤ length room.new) }
    ensures bytes { IfOk result (λ n. Consumes (R.remaining from.old) (R.remaining from.new) (take n room.new)) }
    ensures end { IfOk result (λ n. n < length room.new → IsAtEnd (R.remaining from.new)) }
    ensures err { OnErr result ((n : ℕ) × Consumes (R.remaining from.old) (R.remaining from.new) (take n room.new)) }
{
    // Kept: no heap, so no `read_to_end`, which fills a `Vec`; `read_exact` doesn't promise what the clauses `end` and `err` do.
    let mut got = 0;
    while got < room.len() {
        let n = from.read(&mut room[got..])?;
        if n == 0 {
            break;
        }
        got += n;
    }
    Ok(got)
}

// Writes a text. The error is that of the write that failed or took nothing, and the text's front may have been written.
pub fn write_full<W: Write>(to: &mut W, text: &[u8]) -> io::Result<()>
    ensures ok { OnOk result (Appends (W.contents to.old) (W.contents to.new) text.now) }
    ensures err { OnErr result ((n : ℕ) × Appends (W.contents to.old) (W.contents to.new) (take n text.now)) }
{
    // Kept: the library's `write_all` doesn't promise what the clause `err` does.
    let mut rest = text;
    while !rest.is_empty() {
        let took = to.write(rest)?;
        if took == 0 {
            return Err(io::Error::from(ErrorKind::WriteZero));
        }
        rest = &rest[took..];
    }
    Ok(())
}

// Reads a file, until it ends or is too long, has `put` put its text at the front of `out`, and writes that text. The error is that
// of the read or the write that failed: then a front of the text may have been written, behind a failed read nothing.
pub fn write_put<R: Read, W: Write, F: Fn(&mut [u8], &[u8]) -> usize>(
    from: &mut R,
    to: &mut W,
    out: &mut [u8],
    put: F,
) -> io::Result<()>
    requires can { (a : _) (b : _) → length a.now ≡ length out.old → F.pre put a b }
    requires within { (a : _) (b : _) (r : _) (c : _) → length a.now ≡ length out.old → F.post put a b r c → r ≤ length c.now }
    ensures ok { (text : List ℕ → List ℕ)
        → ((a : _) (b : _) (r : _) (c : _) → length a.now ≡ length out.old → F.post put a b r c → take r c.now ≡ text b.now)
        → OnOk result (IfSome (R.remaining from.old)
        (λ f. Appends (W.contents to.old) (W.contents to.new) (text (take (longest + 1) f)))) }
    ensures err { (text : List ℕ → List ℕ)
        → ((a : _) (b : _) (r : _) (c : _) → length a.now ≡ length out.old → F.post put a b r c → take r c.now ≡ text b.now)
        → OnErr result (IfSome (R.remaining from.old)
        (λ f. (n : ℕ) × Appends (W.contents to.old) (W.contents to.new) (take n (text (take (longest + 1) f))))) }
{
    let mut file = file_room();
    let got = read_full(from, &mut file)?;
    let end = put(out, &file[..got]);
    write_full(to, &out[..end])
}
