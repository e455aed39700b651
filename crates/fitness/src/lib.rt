// Whether a map of lent tables is fit to be asked, whatever they hold, and the parts of the file that its entries name.
#![tactic(auto)]

ghost use Rattle.std.specs.Prelude.{◌≡◌, [], ◌+◌, ◌≤◌, leb, ltb, length};
ghost use Rattle.format.specs.Entries.{key_in_def, value_in_def};
ghost use Rattle.format.specs.Tables.{in_file, fit, maps_reported};
ghost use Rattle.entries.specs.Words.{pair_count};
ghost use Rattle.fitness.specs.Fits.{entries_of, fit_entry, not_listed, fit_at, fit_input, fit_output};
ghost use Rattle.fitness.specs.Parts.{bytes_at, fit_one};

use format::{MapEntry, PairEntry, Psbt, PsbtError};

// `len` bytes from `start` on, or as many as there are.
pub fn bytes_at(file: &[u8], start: usize, len: usize) -> &[u8]
    ensures { result.now ≡ bytes_at file.now start len }
{
    if file.len() <= start {
        return &file[..0];
    }
    if file.len() - start < len {
        return &file[start..];
    }
    &file[start..start + len]
}

// The key that an entry names.
pub fn key_in(file: &[u8], e: PairEntry) -> &[u8]
    ensures { result.now ≡ key_in_def file.now e }
{
    bytes_at(file, e.key, e.klen)
}

// The value that an entry names.
pub fn value_in(file: &[u8], e: PairEntry) -> &[u8]
    ensures { result.now ≡ value_in_def file.now e }
{
    bytes_at(file, e.value, e.vlen)
}

// `len` bytes from `start` on lie in the file.
fn lies(file: &[u8], start: usize, len: usize) -> bool
    ensures { result ≡ leb (start + len) (length file.now) }
{
    start <= file.len() && len <= file.len() - start
}

// An entry's key and value lie in the file, and its key is not empty.
fn in_file(file: &[u8], e: PairEntry) -> bool
    ensures { result ≡ in_file file.now e }
{
    lies(file, e.key, e.klen) && (lies(file, e.value, e.vlen) && 0 < e.klen)
}

// An entry is fit behind the entry `last`.
fn fit_one(file: &[u8], last: PairEntry, e: PairEntry) -> bool
    ensures { result ≡ fit_one file.now last e }
{
    in_file(file, e) && keys::compare(key_in(file, last), key_in(file, e)).is_lt()
}

// The pairs of a map are all fit.
fn fit_all(file: &[u8], pairs: &[u32], m: MapEntry) -> bool
    requires { m.first + m.count ≤ pair_count pairs.now }
    ensures { result ≡ fit file.now [] (entries_of pairs.now m) }
{
    let mut last = PairEntry {
        key: 0,
        klen: 0,
        value: 0,
        vlen: 0,
    };
    for e in entries::pairs_of(pairs, m) {
        if !fit_one(file, last, e) {
            return false;
        }
        last = e;
    }
    true
}

// The map of an entry.
fn fit_entry(file: &[u8], pairs: &[u32], m: MapEntry) -> Result<MapEntry, PsbtError>
    ensures { result ≡ fit_entry file.now pairs.now m }
{
    let n = entries::pair_count(pairs);
    if n < m.first {
        return Err(PsbtError::BadIndex);
    }
    if n - m.first < m.count {
        return Err(PsbtError::BadIndex);
    }
    if fit_all(file, pairs, m) {
        Ok(m)
    } else {
        Err(PsbtError::BadIndex)
    }
}

// A map's number is below one plus both reported counts.
pub fn is_reported(psbt: Psbt, m: u64) -> bool
    ensures { result ≡ ltb m (maps_reported psbt) }
{
    m <= psbt.inputs || m - psbt.inputs <= psbt.outputs
}

// Why a map that the table doesn't have is refused: its number comes before its entry.
fn not_listed(reported: bool) -> Result<MapEntry, PsbtError>
    ensures { result ≡ not_listed reported }
{
    if reported {
        Err(PsbtError::BadIndex)
    } else {
        Err(PsbtError::OutOfRange)
    }
}

// Map number `m`.
pub fn fit_map(
    file: &[u8],
    pairs: &[u32],
    maps: &[u32],
    psbt: Psbt,
    m: u64,
) -> Result<MapEntry, PsbtError>
    ensures { result ≡ fit_at file.now pairs.now maps.now psbt m }
{
    let reported = is_reported(psbt, m);
    if m < entries::map_count(maps) as u64 {
        if reported {
            fit_entry(file, pairs, entries::map_entry(maps, m as usize))
        } else {
            Err(PsbtError::OutOfRange)
        }
    } else {
        not_listed(reported)
    }
}

// Input number `i`.
pub fn fit_input(
    file: &[u8],
    pairs: &[u32],
    maps: &[u32],
    psbt: Psbt,
    i: u64,
) -> Result<MapEntry, PsbtError>
    ensures { result ≡ fit_input file.now pairs.now maps.now psbt i }
{
    if i < psbt.inputs {
        fit_map(file, pairs, maps, psbt, 1 + i)
    } else {
        Err(PsbtError::OutOfRange)
    }
}

// Output number `i`.
pub fn fit_output(
    file: &[u8],
    pairs: &[u32],
    maps: &[u32],
    psbt: Psbt,
    i: u64,
) -> Result<MapEntry, PsbtError>
    ensures { result ≡ fit_output file.now pairs.now maps.now psbt i }
{
    if psbt.outputs <= i {
        return Err(PsbtError::OutOfRange);
    }
    // No table has so many entries.
    if u64::MAX - psbt.inputs <= i {
        return Err(PsbtError::BadIndex);
    }
    fit_map(file, pairs, maps, psbt, 1 + (psbt.inputs + i))
}
