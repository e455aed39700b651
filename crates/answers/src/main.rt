// Reads records from standard input until it ends. A record lends memory or asks calls, and each call is answered by a line
// on standard output.
#![tactic(auto)]

use crate::calls::{ask_map, parse, part_asked, read_call, set_scripts, write_tx};
use crate::lines::{put_answer, put_bytes, put_part, put_table};
use crate::memory::{
    BODY, BUFFER, CALLS, CUT, LIST, Record, cells, number, part, read_record, size_of, store_cells,
    store_numbers,
};
use std::io::{self, Read, Write};
use text::{put, put_byte};

mod calls;
mod lines;
mod memory;

// How far the run is: where the lines end, where the next call of the body at hand begins and where they all end, and how the
// run ended, 0 where it goes on. How many cells each kind of memory has, and what earlier calls left for later ones.
#[derive(Clone, Copy)]
struct Stand {
    at: usize,
    next: usize,
    end: usize,
    how: u8,
    rooms: [usize; 9],
    report: [u64; 8],
    set: u64,
    written: u64,
}

// Nothing is read, lent or put.
fn begin() -> Stand {
    Stand {
        at: 0,
        next: 0,
        end: 0,
        how: 0,
        rooms: [0; 9],
        report: [0; 8],
        set: 0,
        written: 0,
    }
}

// A file takes all other memory back.
fn taken_back(stand: Stand) -> Stand {
    Stand {
        at: stand.at,
        ..begin()
    }
}

// So many cells of a kind are lent.
fn lent(stand: Stand, kind: u8, room: usize) -> Stand {
    let mut s = stand;
    let mut rooms = stand.rooms;
    let k = kind as usize;
    if k < 9 {
        rooms[k] = room;
    }
    s.rooms = rooms;
    s
}

// A report is lent.
fn reported(stand: Stand, body: &[u8]) -> Stand {
    let mut s = stand;
    let mut report = [0u64; 8];
    store_numbers(&mut report, body);
    s.report = report;
    s
}

// What a record changes: its calls come next, the run ends, or memory is lent.
fn after(stand: Stand, record: Record, body: &[u8]) -> Stand {
    let mut s = stand;
    let kind = record.kind;
    match kind {
        0 => lent(taken_back(stand), kind, record.room),
        1 | 2 | 4 | 5 | 6 | 7 => lent(stand, kind, record.room),
        3 => reported(stand, body),
        8 => {
            s.set = number(body, 0);
            s.written = number(body, 1);
            s
        }
        CALLS => {
            s.next = 0;
            s.end = record.size;
            s
        }
        _ => {
            s.how = kind;
            s
        }
    }
}

// Stores what calls write.
fn store(
    kind: u8,
    body: &[u8],
    pairs: &mut [u32; 32768],
    maps: &mut [u32; 4096],
    scripts: &mut [u8; 17920],
    out: &mut [u8; 65536],
) {
    match kind {
        1 => store_cells(pairs, body),
        2 => store_cells(maps, body),
        6 => {
            put(scripts, 0, body);
        }
        7 => {
            put(out, 0, body);
        }
        _ => {}
    }
}

// Reads a record, and lends the memory that it has.
fn next_record<R: Read>(
    stand: Stand,
    input: &mut R,
    texts: &mut [u8; 2240562],
    pairs: &mut [u32; 32768],
    maps: &mut [u32; 4096],
    scripts: &mut [u8; 17920],
    out: &mut [u8; 65536],
) -> io::Result<Stand> {
    let record = read_record(input, texts)?;
    let body = part(texts, BODY, record.size);
    store(record.kind, body, pairs, maps, scripts, out);
    Ok(after(stand, record, body))
}

// The lines end there.
fn put_to(stand: Stand, at: usize) -> Stand {
    Stand { at, ..stand }
}

// The lines end there, and an accepted parse leaves its report.
fn parsed(stand: Stand, at: usize, answer: u64, words: [u64; 8]) -> Stand {
    let mut s = put_to(stand, at);
    if answer == 0 {
        s.report = words;
    }
    s
}

// The lines end there, and an accepted setter or transaction leaves its state.
fn went(stand: Stand, at: usize, answer: u64, set: u64, written: u64) -> Stand {
    let mut s = put_to(stand, at);
    if answer == 0 {
        s.set = set;
        s.written = written;
    }
    s
}

// The line of a parse.
fn answer_parse(
    stand: Stand,
    file: &[u8],
    pairs: &mut [u32; 32768],
    maps: &mut [u32; 4096],
    lines: &mut [u8; 524288],
) -> Stand {
    let rooms = stand.rooms;
    let mut words = [0u64; 8];
    let answer = parse(file, pairs, rooms[1], maps, rooms[2], &mut words);
    let to = put_answer(lines, stand.at, 0, answer, &words);
    let to = put_table(lines, to, cells(pairs, rooms[1]));
    let to = put_table(lines, to, cells(maps, rooms[2]));
    parsed(stand, to, answer, words)
}

// The line of either setter.
fn answer_set(
    stand: Stand,
    call: u8,
    texts: &[u8],
    file: &[u8],
    pairs: &[u32],
    maps: &[u32],
    scripts: &mut [u8; 17920],
    lines: &mut [u8; 524288],
) -> Stand {
    let rooms = stand.rooms;
    let list = part(texts, LIST, size_of(8, rooms[4]));
    let buffer = part(texts, BUFFER, rooms[5]);
    let report = stand.report;
    let mut words = [0u64; 8];
    let answer = set_scripts(
        call,
        file,
        pairs,
        maps,
        &report,
        list,
        buffer,
        stand.set,
        stand.written,
        scripts,
        rooms[6],
        &mut words,
    );
    let to = put_answer(lines, stand.at, call, answer, &words);
    let to = put_bytes(lines, to, part(scripts, 0, rooms[6]));
    went(stand, to, answer, words[1], words[2])
}

// The line of a transaction.
fn answer_tx(
    stand: Stand,
    file: &[u8],
    pairs: &[u32],
    maps: &[u32],
    scripts: &[u8],
    out: &mut [u8; 65536],
    lines: &mut [u8; 524288],
) -> Stand {
    let rooms = stand.rooms;
    let report = stand.report;
    let mut words = [0u64; 8];
    let answer = write_tx(
        file,
        pairs,
        maps,
        &report,
        stand.set,
        stand.written,
        scripts,
        out,
        rooms[7],
        &mut words,
    );
    let to = put_answer(lines, stand.at, 3, answer, &words);
    let to = put_bytes(lines, to, part(out, 0, rooms[7]));
    went(stand, to, answer, words[2], words[3])
}

// The calls that hand back a part.
fn has_part(call: u8) -> bool {
    matches!(call, 49..=53)
}

// The line of any other call.
fn answer_look<'a>(
    stand: Stand,
    call: u8,
    args: &[u64; 8],
    file: &'a [u8],
    pairs: &[u32],
    maps: &[u32],
    buffer: &[u8],
    scripts: &'a [u8],
    lines: &mut [u8; 524288],
) -> Stand {
    let set = stand.set;
    let written = stand.written;
    let report = stand.report;
    let mut words = [0u64; 8];
    let answer = ask_map(
        call, file, pairs, maps, &report, buffer, set, written, scripts, args, &mut words,
    );
    let to = put_answer(lines, stand.at, call, answer, &words);
    if has_part(call) {
        let bytes = part_asked(
            call, file, pairs, maps, &report, buffer, set, written, scripts, args,
        );
        return put_to(stand, put_part(lines, to, bytes));
    }
    put_to(stand, to)
}

// The line of a call over tables that are left or lent.
fn answer_over(
    stand: Stand,
    call: u8,
    args: &[u64; 8],
    texts: &[u8],
    file: &[u8],
    pairs: &[u32],
    maps: &[u32],
    scripts: &mut [u8; 17920],
    out: &mut [u8; 65536],
    lines: &mut [u8; 524288],
) -> Stand {
    let rooms = stand.rooms;
    match call {
        2 | 54 => answer_set(stand, call, texts, file, pairs, maps, scripts, lines),
        3 => answer_tx(
            stand,
            file,
            pairs,
            maps,
            part(scripts, 0, rooms[6]),
            out,
            lines,
        ),
        _ => answer_look(
            stand,
            call,
            args,
            file,
            pairs,
            maps,
            part(texts, BUFFER, rooms[5]),
            part(scripts, 0, rooms[6]),
            lines,
        ),
    }
}

// The line of any call.
fn answer(
    stand: Stand,
    call: u8,
    args: &[u64; 8],
    texts: &[u8],
    pairs: &mut [u32; 32768],
    maps: &mut [u32; 4096],
    scripts: &mut [u8; 17920],
    out: &mut [u8; 65536],
    lines: &mut [u8; 524288],
) -> Stand {
    let rooms = stand.rooms;
    let file = part(texts, 0, rooms[0]);
    if call == 0 {
        return answer_parse(stand, file, pairs, maps, lines);
    }
    answer_over(
        stand,
        call,
        args,
        texts,
        file,
        cells(pairs, rooms[1]),
        cells(maps, rooms[2]),
        scripts,
        out,
        lines,
    )
}

// Ends a line, and writes the lines once they fill an eighth of the buffer: any one line fits the rest.
fn end_line<W: Write>(output: &mut W, lines: &mut [u8], at: usize) -> io::Result<usize> {
    let to = put_byte(lines, at, b'\n');
    if to < lines.len() / 8 {
        return Ok(to);
    }
    output.write_all(part(lines, 0, to))?;
    Ok(0)
}

// Answers the next call of the body at hand.
fn next_call<W: Write>(
    stand: Stand,
    output: &mut W,
    texts: &[u8],
    pairs: &mut [u32; 32768],
    maps: &mut [u32; 4096],
    scripts: &mut [u8; 17920],
    out: &mut [u8; 65536],
    lines: &mut [u8; 524288],
) -> io::Result<Stand> {
    let mut s = stand;
    let mut args = [0u64; 8];
    let Some(call) = read_call(part(texts, BODY, stand.end), stand.next, &mut args) else {
        s.how = CUT;
        return Ok(s);
    };
    s.next = call.next;
    let done = answer(
        s,
        call.number,
        &args,
        texts,
        pairs,
        maps,
        scripts,
        out,
        lines,
    );
    let at = end_line(output, lines, done.at)?;
    Ok(put_to(done, at))
}

// Answers a call, or reads a record.
fn turn<R: Read, W: Write>(
    stand: Stand,
    input: &mut R,
    output: &mut W,
    texts: &mut [u8; 2240562],
    pairs: &mut [u32; 32768],
    maps: &mut [u32; 4096],
    scripts: &mut [u8; 17920],
    out: &mut [u8; 65536],
    lines: &mut [u8; 524288],
) -> io::Result<Stand> {
    if stand.next < stand.end {
        return next_call(stand, output, texts, pairs, maps, scripts, out, lines);
    }
    next_record(stand, input, texts, pairs, maps, scripts, out)
}

// Writes the last lines.
fn finish<W: Write>(output: &mut W, lines: &mut [u8], at: usize, how: u8) -> io::Result<()> {
    if how == CUT {
        let to = put(lines, at, b"cut\n");
        return output.write_all(part(lines, 0, to));
    }
    output.write_all(part(lines, 0, at))
}

// A proved loop has to end, and nothing says that the input does: so it counts its turns down, from a number that no
// run uses up.
fn run<R: Read, W: Write>(
    input: &mut R,
    output: &mut W,
    texts: &mut [u8; 2240562],
    pairs: &mut [u32; 32768],
    maps: &mut [u32; 4096],
    scripts: &mut [u8; 17920],
    out: &mut [u8; 65536],
    lines: &mut [u8; 524288],
) -> io::Result<()> {
    let mut stand = begin();
    for _ in 0..u64::MAX {
        stand = turn(
            stand, input, output, texts, pairs, maps, scripts, out, lines,
        )?;
        if stand.how != 0 {
            return finish(output, lines, stand.at, stand.how);
        }
    }
    Ok(())
}

// All memory is empty first.
fn main(rt: HostRuntime) -> io::Result<()> {
    let mut texts = [0u8; 2240562];
    let mut pairs = [0u32; 32768];
    let mut maps = [0u32; 4096];
    let mut scripts = [0u8; 17920];
    let mut out = [0u8; 65536];
    let mut lines = [0u8; 524288];
    run(
        &mut rt.stdin(),
        &mut io::writer(&rt),
        &mut texts,
        &mut pairs,
        &mut maps,
        &mut scripts,
        &mut out,
        &mut lines,
    )
}
