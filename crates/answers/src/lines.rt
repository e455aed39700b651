// The pieces of a line.
ghost use Rattle.std.specs.Prelude.{◌≤◌, length};

use crate::memory::{FILL, FILL_CELL, part};
use text::{put_byte, put_decimal, put_hex};

// How many bytes of a part are shown.
const SHOWN: usize = 65536;

// A number behind a space.
fn put_word(out: &mut [u8], at: usize, n: u64) -> usize {
    let to = put_byte(out, at, b' ');
    put_decimal(out, to, n)
}

// Words, the zeros at their end left off: those are put and count for nothing.
fn put_words(out: &mut [u8], at: usize, words: &[u64]) -> usize {
    let mut to = at;
    let mut end = at;
    for w in words {
        to = put_word(out, to, *w);
        if *w != 0 {
            end = to;
        }
    }
    end
}

// A call's number, the number that it answered, and its words.
pub fn put_answer(out: &mut [u8], at: usize, call: u8, number: u64, words: &[u64; 8]) -> usize {
    let to = put_decimal(out, at, call as u64);
    let to = put_word(out, to, number);
    put_words(out, to, words)
}

// How many cells of a memory are not as they were filled, or stand before one that isn't.
fn used<T: Copy + PartialEq>(memory: &[T], filled: T) -> usize
    ensures { result ≤ length memory.now }
{
    memory
        .iter()
        .rposition(|cell| *cell != filled)
        .map_or(0, |last| last + 1)
}

// Cells, each behind a space.
fn put_cells(out: &mut [u8], at: usize, cells: &[u32]) -> usize {
    let mut to = at;
    for cell in cells {
        to = put_word(out, to, u64::from(*cell));
    }
    to
}

// A colon behind a space.
fn put_colon(out: &mut [u8], at: usize) -> usize {
    let to = put_byte(out, at, b' ');
    put_byte(out, to, b':')
}

// The used cells of a table behind a colon.
pub fn put_table(out: &mut [u8], at: usize, table: &[u32]) -> usize {
    let n = used(table, FILL_CELL);
    let to = put_colon(out, at);
    put_cells(out, to, &table[..n])
}

// Bytes behind a colon.
fn put_run(out: &mut [u8], at: usize, bytes: &[u8]) -> usize {
    let to = put_colon(out, at);
    if bytes.is_empty() {
        return to;
    }
    let to = put_byte(out, to, b' ');
    put_hex(out, to, bytes)
}

// The used bytes of a memory.
pub fn put_bytes(out: &mut [u8], at: usize, memory: &[u8]) -> usize {
    let n = used(memory, FILL);
    put_run(out, at, &memory[..n])
}

// The front of a part.
pub fn put_part(out: &mut [u8], at: usize, bytes: &[u8]) -> usize {
    put_run(out, at, part(bytes, 0, SHOWN))
}
