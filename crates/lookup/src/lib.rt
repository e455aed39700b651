// Lookups and listings in a map of lent tables, which may hold anything.
#![tactic(auto)]

ghost use Rattle.std.specs.Prelude.{◌≡◌, ◌+◌, ◌≤◌};
ghost use Rattle.format.specs.Keys.{type_of, key_of, same};
ghost use Rattle.format.specs.Entries.{key_in_def};
ghost use Rattle.format.specs.Tables.{held, holds};
ghost use Rattle.format.specs.Lookups.{place, length_fits, of_length_def, asked, look, part, number_at, list, nth, key_part, value_part};
ghost use Rattle.format.specs.Told.{told_listing, told_looked, told_nth};
ghost use Rattle.entries.specs.Words.{pair_count};
ghost use Rattle.fitness.specs.Fits.{entries_of, held_of, Within};
ghost use Rattle.lookup.specs.Finds.{length_of, Short};
ghost use Rattle.lookup.specs.Lists.{is_before, is_listed};

use fitness::{bytes_at, fit_map, key_in, value_in};
use format::{Listed, MapEntry, PUBKEY_LEN, PairEntry, Part, Psbt, PsbtError};

// Which lengths of a value are right: any, one of so many bytes, a list of public keys that is not empty.
#[derive(Clone, Copy)]
pub enum Wanted {
    AnyLength,
    Exactly(usize),
    KeyList,
}

// An entry's key is the asked one.
fn is_key(file: &[u8], e: PairEntry, key_type: u8, key_data: &[u8]) -> bool
    ensures { result ≡ same (key_of key_type key_data.now) (key_in_def file.now e) }
{
    let key = key_in(file, e);
    key.len() == key_data.len() + 1
        && (key[0] == key_type && keys::compare(key_data, &key[1..]).is_eq())
}

// Where the value of the asked key stands.
pub fn find_place(
    file: &[u8],
    pairs: &[u32],
    m: MapEntry,
    key_type: u8,
    key_data: &[u8],
) -> Option<Part>
    requires { m.first + m.count ≤ pair_count pairs.now }
    ensures { Ok result ≡ place file.now (key_of key_type key_data.now) (entries_of pairs.now m) }
{
    let found = entries::pairs_of(pairs, m).find(|e| is_key(file, *e, key_type, key_data));
    match found {
        Some(e) => Some(Part {
            start: e.value,
            len: e.vlen,
        }),
        None => None,
    }
}

// A length is a right one.
fn length_fits(wanted: Wanted, n: usize) -> bool
    ensures { result ≡ length_fits (length_of wanted) n }
{
    match wanted {
        Wanted::AnyLength => true,
        Wanted::Exactly(w) => n == w,
        Wanted::KeyList => n != 0 && n % PUBKEY_LEN == 0,
    }
}

// A value of a wrong length is refused.
fn of_length(wanted: Wanted, found: Option<Part>) -> Result<Option<Part>, PsbtError>
    ensures { result ≡ of_length_def (length_of wanted) (Ok found) }
{
    match found {
        Some(p) if !length_fits(wanted, p.len) => Err(PsbtError::BadValue),
        _ => Ok(found),
    }
}

// A typed lookup in a map: the asked key's length, absence, the value's length.
pub fn asked_in(
    file: &[u8],
    pairs: &[u32],
    m: MapEntry,
    ok: bool,
    wanted: Wanted,
    key_type: u8,
    key_data: &[u8],
) -> Result<Option<Part>, PsbtError>
    requires { m.first + m.count ≤ pair_count pairs.now }
    ensures { result ≡ asked ok (length_of wanted) file.now (key_of key_type key_data.now)
        (holds (entries_of pairs.now m)) }
{
    if !ok {
        return Err(PsbtError::BadValue);
    }
    of_length(wanted, find_place(file, pairs, m, key_type, key_data))
}

// A typed lookup: the map's refusal, and then what the lookup in the map gives.
pub fn asked(
    file: &[u8],
    pairs: &[u32],
    fit: Result<MapEntry, PsbtError>,
    ok: bool,
    wanted: Wanted,
    key_type: u8,
    key_data: &[u8],
) -> Result<Option<Part>, PsbtError>
    requires { Within pairs.now fit }
    ensures { result ≡ asked ok (length_of wanted) file.now (key_of key_type key_data.now) (held_of pairs.now fit) }
{
    let m = fit?;
    asked_in(file, pairs, m, ok, wanted, key_type, key_data)
}

// The lookup of any key: where its value stands, that there is none, or the refusal.
pub fn get(
    file: &[u8],
    pairs: &[u32],
    maps: &[u32],
    psbt: Psbt,
    m: u64,
    key_type: u8,
    key_data: &[u8],
) -> Result<Option<Part>, PsbtError>
    ensures { told_looked result ≡ told_looked (look file.now key_type key_data.now
        (held file.now pairs.now maps.now psbt m)) }
{
    let fit = fit_map(file, pairs, maps, psbt, m);
    asked(
        file,
        pairs,
        fit,
        true,
        Wanted::AnyLength,
        key_type,
        key_data,
    )
}

// The part of the file that a lookup hands back: empty for absence and refusal.
pub fn part_of(file: &[u8], looked: Result<Option<Part>, PsbtError>) -> &[u8]
    ensures { result.now ≡ part file.now looked }
{
    let Ok(found) = looked else {
        return &file[..0];
    };
    match found {
        Some(p) => bytes_at(file, p.start, p.len),
        None => &file[..0],
    }
}

// The value that `get` finds, as the part of the file itself.
pub fn get_part<'a>(
    file: &'a [u8],
    pairs: &[u32],
    maps: &[u32],
    psbt: Psbt,
    m: u64,
    key_type: u8,
    key_data: &[u8],
) -> &'a [u8]
    ensures { result.now ≡ part file.now (look file.now key_type key_data.now
        (held file.now pairs.now maps.now psbt m)) }
{
    let looked = get(file, pairs, maps, psbt, m, key_type, key_data);
    part_of(file, looked)
}

// The number that a value spells.
pub fn number_at(
    file: &[u8],
    looked: Result<Option<Part>, PsbtError>,
) -> Result<Option<u64>, PsbtError>
    requires { Short looked }
    ensures { result ≡ number_at file.now looked }
{
    match looked? {
        None => Ok(None),
        Some(p) => Ok(Some(wire::u64_from_le_bytes(bytes_at(file, p.start, p.len)))),
    }
}

// A key's type.
fn type_of(key: &[u8]) -> u8
    ensures { result ≡ type_of key.now }
{
    if key.len() == 0 { 0 } else { key[0] }
}

// An entry's key stands before the bare key of a type.
fn is_before(file: &[u8], e: PairEntry, key_type: u8) -> bool
    ensures { result ≡ is_before file.now key_type e }
{
    let bare = [key_type];
    keys::compare(key_in(file, e), &bare).is_lt()
}

// An entry's key has a type.
fn is_listed(file: &[u8], e: PairEntry, key_type: u8) -> bool
    ensures { result ≡ is_listed file.now key_type e }
{
    type_of(key_in(file, e)) == key_type
}

// The pairs of a type in a map: where they begin in it, or would, and how many they are.
fn list_entries(file: &[u8], pairs: &[u32], m: MapEntry, key_type: u8) -> Listed
    requires { m.first + m.count ≤ pair_count pairs.now }
    ensures { Ok result ≡ list file.now key_type (holds (entries_of pairs.now m)) }
{
    let mut first = 0;
    let mut count = 0;
    for e in entries::pairs_of(pairs, m) {
        first += is_before(file, e, key_type) as usize;
        count += is_listed(file, e, key_type) as usize;
    }
    Listed { first, count }
}

// The listing of a type: the map's refusal, or the pairs of the type in the map.
pub fn list_in(
    file: &[u8],
    pairs: &[u32],
    fit: Result<MapEntry, PsbtError>,
    key_type: u8,
) -> Result<Listed, PsbtError>
    requires { Within pairs.now fit }
    ensures { result ≡ list file.now key_type (held_of pairs.now fit) }
{
    let entry = fit?;
    Ok(list_entries(file, pairs, entry, key_type))
}

// The listing of a type in map number `m`.
pub fn list(
    file: &[u8],
    pairs: &[u32],
    maps: &[u32],
    psbt: Psbt,
    m: u64,
    key_type: u8,
) -> Result<Listed, PsbtError>
    ensures { told_listing result ≡ told_listing (list file.now key_type
        (held file.now pairs.now maps.now psbt m)) }
{
    let fit = fit_map(file, pairs, maps, psbt, m);
    list_in(file, pairs, fit, key_type)
}

// A pair by its number in its map.
fn nth_entry(pairs: &[u32], m: MapEntry, i: usize) -> Result<PairEntry, PsbtError>
    requires { m.first + m.count ≤ pair_count pairs.now }
    ensures { result ≡ nth i (holds (entries_of pairs.now m)) }
{
    if i < m.count {
        Ok(entries::pair_entry(pairs, m.first + i))
    } else {
        Err(PsbtError::OutOfRange)
    }
}

// The same, behind the map's refusal.
pub fn nth_in(
    pairs: &[u32],
    fit: Result<MapEntry, PsbtError>,
    i: usize,
) -> Result<PairEntry, PsbtError>
    requires { Within pairs.now fit }
    ensures { result ≡ nth i (held_of pairs.now fit) }
{
    let named = fit?;
    nth_entry(pairs, named, i)
}

// Pair number `i` of map number `m`.
pub fn nth(
    file: &[u8],
    pairs: &[u32],
    maps: &[u32],
    psbt: Psbt,
    m: u64,
    i: usize,
) -> Result<PairEntry, PsbtError>
    ensures { told_nth result ≡ told_nth (nth i (held file.now pairs.now maps.now psbt m)) }
{
    let fit = fit_map(file, pairs, maps, psbt, m);
    nth_in(pairs, fit, i)
}

// Its key, as the part of the file itself: empty for a refusal.
pub fn key_part(file: &[u8], pair: Result<PairEntry, PsbtError>) -> &[u8]
    ensures { result.now ≡ key_part file.now pair }
{
    match pair {
        Err(_) => &file[..0],
        Ok(e) => key_in(file, e),
    }
}

// Its value, in the same way.
pub fn value_part(file: &[u8], pair: Result<PairEntry, PsbtError>) -> &[u8]
    ensures { result.now ≡ value_part file.now pair }
{
    match pair {
        Err(_) => &file[..0],
        Ok(e) => value_in(file, e),
    }
}

// The key of pair number `i` of map number `m`.
pub fn nth_key<'a>(
    file: &'a [u8],
    pairs: &[u32],
    maps: &[u32],
    psbt: Psbt,
    m: u64,
    i: usize,
) -> &'a [u8]
    ensures { result.now ≡ key_part file.now (nth i (held file.now pairs.now maps.now psbt m)) }
{
    let pair = nth(file, pairs, maps, psbt, m, i);
    key_part(file, pair)
}

// The value of pair number `i` of map number `m`.
pub fn nth_value<'a>(
    file: &'a [u8],
    pairs: &[u32],
    maps: &[u32],
    psbt: Psbt,
    m: u64,
    i: usize,
) -> &'a [u8]
    ensures { result.now ≡ value_part file.now (nth i (held file.now pairs.now maps.now psbt m)) }
{
    let pair = nth(file, pairs, maps, psbt, m, i);
    value_part(file, pair)
}
