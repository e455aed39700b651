// The line that says where a refused parse stopped, by the tables as they were left.
#![tactic(auto)]

ghost use Rattle.std.specs.Prelude.{◌≡◌};
ghost use Rattle.text.specs.Spots.{spot, lay};
ghost use Rattle.stop_lines.specs.Stops.{one_of, pairs_before, pairs_passed, count_shown, behind_global, place_at, stopped, after_pairs, numbered_line};
ghost use Rattle.stop_lines.specs.Stops.{stop_line};

use format::{PSBT_GLOBAL_INPUT_COUNT, PSBT_GLOBAL_OUTPUT_COUNT, Psbt, PsbtError};
use text::{put, put_decimal};

// Where a parse stopped: nothing was read; in the global map or at its end; in an input or an output; behind the last map.
// `pairs` of the map had passed.
#[derive(Clone, Copy)]
pub enum Place {
    Nowhere,
    Global { pairs: usize },
    GlobalEnd,
    Input { number: u64, pairs: usize },
    Output { number: u64, pairs: usize },
    Behind,
}

// A refusal is one of two.
fn is_one_of(e: PsbtError, a: PsbtError, b: PsbtError) -> bool
    ensures { result ≡ one_of e a b }
{
    let n = e.number();
    n == a.number() || n == b.number()
}

// How many pairs the maps before map number `m` have.
fn pairs_before(maps: &[u32], m: usize) -> usize
    ensures { result ≡ pairs_before maps.now m }
{
    if m == 0 || entries::map_count(maps) < m {
        return 0;
    }
    let e = entries::map_entry(maps, m - 1);
    e.first + e.count
}

// How many pairs of map number `m` passed, where `p` passed in all.
fn pairs_passed(maps: &[u32], p: usize, m: usize) -> usize
    ensures { result ≡ pairs_passed maps.now p m }
{
    p.saturating_sub(pairs_before(maps, m))
}

// What a count field of the global map says, 0 where the tables show none.
fn count_shown(file: &[u8], pairs: &[u32], maps: &[u32], key_type: u8) -> u64
    ensures { result ≡ count_shown file.now pairs.now maps.now key_type }
{
    let unknown = Psbt {
        tx_version: 0,
        fallback_locktime: None,
        tx_modifiable: None,
        inputs: 0,
        outputs: 0,
    };
    let value = lookup::get_part(file, pairs, maps, unknown, 0, key_type, &file[..0]);
    match wire::read_size(value) {
        Ok(size) => size.value,
        Err(_) => 0,
    }
}

// The map number `i` behind the global map: an input, an output, or none.
fn behind_global(i: u64, pairs: usize, ins: u64, outs: u64) -> Place
    ensures { result ≡ behind_global i pairs ins outs }
{
    if i < ins {
        return Place::Input { number: i, pairs };
    }
    let j = i - ins;
    if j < outs {
        return Place::Output { number: j, pairs };
    }
    Place::Behind
}

// Where a parse stopped, by its refusal, how many maps had ended, how many pairs of the next had passed, and both counts.
fn place_at(e: PsbtError, maps: u64, pairs: usize, ins: u64, outs: u64) -> Place
    ensures { result ≡ place_at e maps pairs ins outs }
{
    if is_one_of(e, PsbtError::InvalidMagic, PsbtError::TooLong) {
        return Place::Nowhere;
    }
    if maps == 0 {
        return Place::Global { pairs };
    }
    if is_one_of(e, PsbtError::MissingCounts, PsbtError::NotAllowed) {
        return Place::GlobalEnd;
    }
    behind_global(maps - 1, pairs, ins, outs)
}

// Where a parse stopped that reports this refusal with `p` pairs and `m` maps and left these tables.
fn stopped(file: &[u8], pairs: &[u32], maps: &[u32], e: PsbtError, p: usize, m: usize) -> Place
    ensures { result ≡ stopped file.now pairs.now maps.now e p m }
{
    let passed = pairs_passed(maps, p, m);
    let ins = count_shown(file, pairs, maps, PSBT_GLOBAL_INPUT_COUNT);
    let outs = count_shown(file, pairs, maps, PSBT_GLOBAL_OUTPUT_COUNT);
    place_at(e, m as u64, passed, ins, outs)
}

// `, after N pairs`
fn put_after(out: &mut [u8], at: usize, pairs: usize) -> usize
    ensures { spot result out.new ≡ lay (spot at out.old) (after_pairs pairs) }
{
    let to = put(out, at, b", after ");
    let to = put_decimal(out, to, pairs as u64);
    if pairs == 1 {
        return put(out, to, b" pair\n");
    }
    put(out, to, b" pairs\n")
}

// A map that has a number, named by `says`, and how many of its pairs had passed.
fn put_numbered(out: &mut [u8], at: usize, says: &[u8], number: u64, pairs: usize) -> usize
    ensures { spot result out.new ≡ lay (spot at out.old) (numbered_line says.now number pairs) }
{
    let to = put(out, at, says);
    let to = put_decimal(out, to, number);
    put_after(out, to, pairs)
}

// The line of a place.
fn put_place(out: &mut [u8], at: usize, place: Place) -> usize
    ensures { spot result out.new ≡ lay (spot at out.old) (stop_line place) }
{
    match place {
        Place::Nowhere => at,
        Place::Global { pairs } => {
            let to = put(out, at, b"stopped in the global map");
            put_after(out, to, pairs)
        }
        Place::GlobalEnd => put(out, at, b"stopped at the end of the global map\n"),
        Place::Input { number, pairs } => {
            put_numbered(out, at, b"stopped in input ", number, pairs)
        }
        Place::Output { number, pairs } => {
            put_numbered(out, at, b"stopped in output ", number, pairs)
        }
        Place::Behind => put(out, at, b"stopped behind the last map\n"),
    }
}

// Puts at `at` where a parse stopped that reports this refusal with `p` pairs and `m` maps and left these tables; answers the place behind it.
pub fn put_stop(
    out: &mut [u8],
    at: usize,
    file: &[u8],
    pairs: &[u32],
    maps: &[u32],
    e: PsbtError,
    p: usize,
    m: usize,
) -> usize
    ensures { spot result out.new ≡ lay (spot at out.old)
        (stop_line (stopped file.now pairs.now maps.now e p m)) }
{
    put_place(out, at, stopped(file, pairs, maps, e, p, m))
}
