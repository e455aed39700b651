// Memory that records lend. What calls only read stands in one array, its texts: the file, the buffer, the list and the body of
// the record at hand, one behind the other. What calls write has an array each.
use format::{LIMIT, Part};
use lookup::part_of;
use rooms::read_full;
use std::io::{self, Read};
use wire::{u32_from_le_bytes, u64_from_le_bytes};

// What a byte is that nothing was stored in.
pub const FILL: u8 = 0xa5;

// What a cell of four such bytes is.
pub const FILL_CELL: u32 = 0xa5a5_a5a5;

// How many bytes a file has at most that is lent: one more than is read.
const FILE_MOST: usize = LIMIT + 1;

// How many bytes the buffer has at most.
const BUFFER_MOST: usize = 131072;

// How many cells the list has at most.
const LIST_MOST: usize = 1542;

// Where the buffer begins in the texts: behind the file, which is first.
pub const BUFFER: usize = FILE_MOST;

// Where the list begins.
pub const LIST: usize = BUFFER + BUFFER_MOST;

// Where the body of the record at hand begins.
pub const BODY: usize = LIST + LIST_MOST * 8;

// The kind of a record whose body is calls.
pub const CALLS: u8 = 9;

// What stands for the input's end.
pub const OVER: u8 = 10;

// What stands for a record that is cut.
pub const CUT: u8 = 11;

// Where the body of a record is read to, how many bytes a cell of its memory has, and how many cells there are at most.
#[derive(Clone, Copy)]
struct Memory {
    from: usize,
    each: usize,
    most: usize,
}

// A record: its kind, how many cells it lends, and how many bytes these are.
#[derive(Clone, Copy)]
pub struct Record {
    pub kind: u8,
    pub room: usize,
    pub size: usize,
}

// `len` bytes from `start` on, as many as there are.
pub fn part(s: &[u8], start: usize, len: usize) -> &[u8] {
    part_of(s, Ok(Some(Part { start, len })))
}

// The first `n` cells, as many as there are.
pub fn cells(table: &[u32], n: usize) -> &[u32] {
    &table[..n.min(table.len())]
}

// A memory from its numbers.
fn held(from: usize, each: usize, most: usize) -> Memory {
    Memory { from, each, most }
}

// The memory of a kind of record.
fn memory_of(kind: u8) -> Memory {
    match kind {
        0 => held(0, 1, FILE_MOST),
        1 => held(BODY, 4, 32768),
        2 => held(BODY, 4, 4096),
        3 => held(BODY, 8, 8),
        4 => held(LIST, 8, LIST_MOST),
        5 => held(BUFFER, 1, BUFFER_MOST),
        6 => held(BODY, 1, 17920),
        7 => held(BODY, 1, 65536),
        8 => held(BODY, 8, 2),
        _ => held(BODY, 1, FILE_MOST),
    }
}

// How many bytes so many cells take; no memory of wider cells has 65,536.
pub fn size_of(each: usize, room: usize) -> usize {
    if each == 1 {
        return room;
    }
    if 65536 <= room {
        return 0;
    }
    if each == 4 { room * 4 } else { room * 8 }
}

// So many bytes are whole cells.
fn is_whole(each: usize, length: usize) -> bool {
    match each {
        1 => true,
        4 => length % 4 == 0,
        _ => length % 8 == 0,
    }
}

// A body of that length fits the room, and that the memory.
fn fits(m: Memory, room: usize, length: usize) -> bool {
    room <= m.most && length <= size_of(m.each, room) && is_whole(m.each, length)
}

// The little-endian number of four bytes from `at` on.
fn word(s: &[u8], at: usize) -> usize {
    u32_from_le_bytes(part(s, at, 4)) as usize
}

// Reads `length` bytes of the input to `from`, and fills the bytes behind them up to `size`.
fn read_part<R: Read>(
    input: &mut R,
    texts: &mut [u8],
    from: usize,
    length: usize,
    size: usize,
) -> io::Result<bool> {
    if texts.len() < from || texts.len() - from < length || texts.len() - from < size {
        return Ok(false);
    }
    texts[from..from + size].fill(FILL);
    let got = read_full(input, &mut texts[from..from + length])?;
    Ok(got == length)
}

// A record that is none.
fn nothing(kind: u8) -> Record {
    Record {
        kind,
        room: 0,
        size: 0,
    }
}

// Reads a body.
fn read_body<R: Read>(
    input: &mut R,
    texts: &mut [u8],
    kind: u8,
    room: usize,
    length: usize,
) -> io::Result<Record> {
    let m = memory_of(kind);
    if !fits(m, room, length) {
        return Ok(nothing(CUT));
    }
    let size = size_of(m.each, room);
    let whole = read_part(input, texts, m.from, length, size)?;
    if !whole {
        return Ok(nothing(CUT));
    }
    Ok(Record { kind, room, size })
}

// Reads one record. The room of calls is their length.
pub fn read_record<R: Read>(input: &mut R, texts: &mut [u8]) -> io::Result<Record> {
    let mut head = [0u8; 9];
    let got = read_full(input, &mut head)?;
    if got == 0 {
        return Ok(nothing(OVER));
    }
    if got < 9 {
        return Ok(nothing(CUT));
    }
    let kind = head[0];
    let length = word(&head, 5);
    if CALLS < kind {
        return Ok(nothing(CUT));
    }
    if kind == CALLS {
        return read_body(input, texts, kind, length, length);
    }
    read_body(input, texts, kind, word(&head, 1), length)
}

// Stores as many cells as the bytes have.
pub fn store_cells(table: &mut [u32], bytes: &[u8]) {
    for (cell, word) in table.iter_mut().zip(bytes.chunks_exact(4)) {
        *cell = u32_from_le_bytes(word);
    }
}

// Number `i` of the bytes, 0 past their end.
pub fn number(bytes: &[u8], i: usize) -> u64 {
    u64_from_le_bytes(part(bytes, size_of(8, i), 8))
}

// Stores numbers, 0 where the bytes have ended.
pub fn store_numbers(list: &mut [u64], bytes: &[u8]) {
    for (i, cell) in list.iter_mut().enumerate() {
        *cell = number(bytes, i);
    }
}
