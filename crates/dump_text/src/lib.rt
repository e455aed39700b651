// The text that the dump prints of a file, put into a lent buffer as far as it has room.
#![tactic(auto)]

ghost use Rattle.std.specs.Prelude.{◌≡◌, map, ◌+◌, ◌≤◌, length, take, ℕ, OnOk, OnErr, IfSome};
ghost use Rattle.std.specs.Io.KnownBytes.{Appends};
ghost use Rattle.rooms.specs.Limits.{longest};
ghost use Rattle.format.specs.Entries.{shown};
ghost use Rattle.format.specs.Tables.{view, maps_reported};
ghost use Rattle.entries.specs.Words.{pair_count};
ghost use Rattle.fitness.specs.Fits.{entries_of};
ghost use Rattle.text.specs.Spots.{spot, lay};
ghost use Rattle.dump_text.specs.Lines.{refused_line, version_text, counts_text, head_line, map_line, key_text};
ghost use Rattle.dump_text.specs.Lines.{pair_text, pair_line, pairs_text, map_text, maps_text, unsigned_line};
ghost use Rattle.dump_text.specs.Dump.{longest_dump, accepted_text, dump_in, dump};

use entries::{map_count, pairs_of};
use fitness::{bytes_at, fit_map, key_in, value_in};
use format::{MapEntry, PairEntry, Parsed, Psbt, PsbtError, State, Written};
use rooms::{LONGEST, map_room, pair_room, tx_room, write_put};
use std::io::{self, Read, Write};
use text::{put, put_decimal, put_hex_byte, put_hex_or_dash, put_signed};

// The longest dump, in bytes.
const LONGEST_DUMP: usize = 272_384;

// `refused N`
fn put_refused(out: &mut [u8], at: usize, e: PsbtError) -> usize
    ensures { spot result out.new ≡ lay (spot at out.old) (refused_line e) }
{
    let to = put(out, at, b"refused ");
    let to = put_decimal(out, to, e.number() as u64);
    put(out, to, b"\n")
}

// `psbt 2 tx V`
fn put_version(out: &mut [u8], at: usize, v: i32) -> usize
    ensures { spot result out.new ≡ lay (spot at out.old) (version_text v) }
{
    let to = put(out, at, b"psbt 2 tx ");
    put_signed(out, to, v)
}

// ` inputs N outputs M`
fn put_counts(out: &mut [u8], at: usize, n: u64, m: u64) -> usize
    ensures { spot result out.new ≡ lay (spot at out.old) (counts_text n m) }
{
    let to = put(out, at, b" inputs ");
    let to = put_decimal(out, to, n);
    let to = put(out, to, b" outputs ");
    let to = put_decimal(out, to, m);
    put(out, to, b"\n")
}

// `psbt 2 tx V inputs N outputs M`
fn put_head(out: &mut [u8], at: usize, psbt: Psbt) -> usize
    ensures { spot result out.new ≡ lay (spot at out.old) (head_line psbt) }
{
    let to = put_version(out, at, psbt.tx_version);
    put_counts(out, to, psbt.inputs, psbt.outputs)
}

// `map M pairs N`
fn put_map_line(out: &mut [u8], at: usize, m: u64, n: usize) -> usize
    ensures { spot result out.new ≡ lay (spot at out.old) (map_line m n) }
{
    let to = put(out, at, b"map ");
    let to = put_decimal(out, to, m);
    let to = put(out, to, b" pairs ");
    let to = put_decimal(out, to, n as u64);
    put(out, to, b"\n")
}

// A key: its type, and its data or `-`.
fn put_key(out: &mut [u8], at: usize, key: &[u8]) -> usize
    ensures { spot result out.new ≡ lay (spot at out.old) (key_text key.now) }
{
    let [key_type, data @ ..] = key else {
        return put(out, at, b"00 -");
    };
    let to = put_hex_byte(out, at, *key_type);
    let to = put(out, to, b" ");
    put_hex_or_dash(out, to, data)
}

// A pair's line.
fn put_pair(out: &mut [u8], at: usize, key: &[u8], value: &[u8]) -> usize
    ensures { spot result out.new ≡ lay (spot at out.old) (pair_text key.now value.now) }
{
    let to = put_key(out, at, key);
    let to = put(out, to, b" ");
    let to = put_hex_or_dash(out, to, value);
    put(out, to, b"\n")
}

// The line of the pair that an entry shows.
fn put_entry(out: &mut [u8], at: usize, file: &[u8], e: PairEntry) -> usize
    ensures { spot result out.new ≡ lay (spot at out.old) (pair_line (shown file.now e)) }
{
    put_pair(out, at, key_in(file, e), value_in(file, e))
}

// The lines of a map's pairs.
fn put_pairs(out: &mut [u8], at: usize, file: &[u8], pairs: &[u32], m: MapEntry) -> usize
    requires { m.first + m.count ≤ pair_count pairs.now }
    ensures { spot result out.new
        ≡ lay (spot at out.old) (pairs_text (map (shown file.now) (entries_of pairs.now m))) }
{
    let mut to = at;
    for e in pairs_of(pairs, m) {
        to = put_entry(out, to, file, e);
    }
    to
}

// The lines of map number `m`, by its entry.
fn put_map(out: &mut [u8], at: usize, file: &[u8], pairs: &[u32], m: u64, e: MapEntry) -> usize
    requires { e.first + e.count ≤ pair_count pairs.now }
    ensures { spot result out.new
        ≡ lay (spot at out.old) (map_text m (map (shown file.now) (entries_of pairs.now e))) }
{
    let to = put_map_line(out, at, m, e.count);
    put_pairs(out, to, file, pairs, e)
}

// The lines of all reported maps that are listed. An accepted parse lists each, and leaves none that is refused.
fn put_maps(
    out: &mut [u8],
    at: usize,
    file: &[u8],
    pairs: &[u32],
    maps: &[u32],
    psbt: Psbt,
) -> usize
    ensures { spot result out.new
        ≡ lay (spot at out.old) (maps_text (view file.now pairs.now maps.now psbt) 0 (maps_reported psbt)) }
{
    let mut to = at;
    for m in 0..map_count(maps) as u64 {
        let Ok(e) = fit_map(file, pairs, maps, psbt, m) else {
            return to;
        };
        to = put_map(out, to, file, pairs, m, e);
    }
    to
}

// The last line, by what the transaction answered and the buffer that it left.
fn put_unsigned(out: &mut [u8], at: usize, x: Result<Written, PsbtError>, tx: &[u8]) -> usize
    ensures { spot result out.new ≡ lay (spot at out.old) (unsigned_line x tx.now) }
{
    let to = put(out, at, b"unsigned ");
    match x {
        Err(e) => put_refused(out, to, e),
        Ok(written) => {
            let to = put_hex_or_dash(out, to, bytes_at(tx, 0, written.len));
            put(out, to, b"\n")
        }
    }
}

// The text of an accepted file, by the tables that its parse left.
fn put_accepted(
    out: &mut [u8],
    at: usize,
    file: &[u8],
    pairs: &[u32],
    maps: &[u32],
    psbt: Psbt,
    tx: &mut [u8],
) -> usize
    ensures { spot result out.new
        ≡ lay (spot at out.old) (accepted_text (view file.now pairs.now maps.now psbt) psbt tx.old) }
{
    let to = put_head(out, at, psbt);
    let to = put_maps(out, to, file, pairs, maps, psbt);
    let fresh = State {
        set: false,
        written: false,
    };
    let x = unsigned_tx::unsigned_tx(file, pairs, maps, psbt, fresh, &file[..0], tx);
    put_unsigned(out, to, x, tx)
}

// The text of a file, parsed into these tables and with this room for the transaction.
fn put_parsed(
    out: &mut [u8],
    at: usize,
    file: &[u8],
    pairs: &mut [u32],
    maps: &mut [u32],
    tx: &mut [u8],
) -> usize
    ensures { spot result out.new
        ≡ lay (spot at out.old) (dump_in pairs.old maps.old tx.old file.now) }
{
    match psbt::parse(file, pairs, maps) {
        Parsed::Accepted { psbt, .. } => put_accepted(out, at, file, pairs, maps, psbt, tx),
        Parsed::Refused { error, .. } => put_refused(out, at, error),
    }
}

// Puts the text of a file at `at`, as far as there is room, and answers the place behind it.
// Kept: `why_text::put_why` has the same rooms. One function over both would take a closure of six lent slices with the promise
// of each text, longer than the lines that it saves.
pub fn put_dump(out: &mut [u8], at: usize, file: &[u8]) -> usize
    ensures { spot result out.new ≡ lay (spot at out.old) (dump file.now) }
{
    if LONGEST < file.len() {
        return put_refused(out, at, PsbtError::TooLong);
    }
    let mut pairs = pair_room();
    let mut maps = map_room();
    let mut tx = tx_room();
    put_parsed(out, at, file, &mut pairs, &mut maps, &mut tx)
}

// Room for every dump: none is longer (`dump_fits`).
fn text_room() -> [u8; LONGEST_DUMP]
    ensures { longest_dump ≡ length result }
{
    [0; LONGEST_DUMP]
}

// Puts the dump of a file at the front of a room for every dump, where it stands whole, and answers its end.
fn put_whole(out: &mut [u8], file: &[u8]) -> usize
    requires { longest_dump ≤ length out.old }
    ensures upper_bound { result ≤ length out.new }
    ensures out_after { take result out.new ≡ dump file.now }
{
    put_dump(out, 0, file)
}

// Reads a file, until it ends or is too long, and writes its dump. The error is that of the read or the write that failed: then
// a front of the dump may have been written, behind a failed read nothing.
pub fn dump_input<R: Read, W: Write>(from: &mut R, to: &mut W) -> io::Result<()>
    ensures ok { OnOk result (IfSome (R.remaining from.old)
        (λ f. Appends (W.contents to.old) (W.contents to.new) (dump (take (longest + 1) f)))) }
    ensures err { OnErr result (IfSome (R.remaining from.old)
        (λ f. (n : ℕ) × Appends (W.contents to.old) (W.contents to.new) (take n (dump (take (longest + 1) f))))) }
{
    let mut out = text_room();
    write_put(from, to, &mut out, put_whole)
}
