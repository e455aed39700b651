// Lookups in any map by its number: 0 is the global map, then come the inputs, then the outputs.
ghost use Rattle.std.specs.Prelude.{◌≡◌};
ghost use Rattle.format.specs.Lookups.{key_part, list, look, nth, part, value_part};
ghost use Rattle.format.specs.Tables.{held};
ghost use Rattle.format.specs.Told.{told_listing, told_looked, told_nth};

use format::{Listed, PairEntry, Part, Psbt, PsbtError};

// Where the value of a key stands, by the key's type and data.
pub fn get(
    file: &[u8],
    pairs: &[u32],
    maps: &[u32],
    psbt: Psbt,
    m: u64,
    key_type: u8,
    key_data: &[u8],
) -> Result<Option<Part>, PsbtError>
    ensures { told_looked result
        ≡ told_looked (look file.now key_type
        key_data.now (held file.now pairs.now maps.now psbt m)) }
{
    lookup::get(file, pairs, maps, psbt, m, key_type, key_data)
}

// That value, as the part of the file itself: empty for absence and refusal.
pub fn get_part<'a>(
    file: &'a [u8],
    pairs: &[u32],
    maps: &[u32],
    psbt: Psbt,
    m: u64,
    key_type: u8,
    key_data: &[u8],
) -> &'a [u8]
    ensures { result.now
        ≡ part file.now
        (look file.now key_type key_data.now (held file.now pairs.now maps.now psbt m)) }
{
    lookup::get_part(file, pairs, maps, psbt, m, key_type, key_data)
}

// The pairs of a type: the first one's number in the map, or where it would stand, and how many they are.
pub fn list(
    file: &[u8],
    pairs: &[u32],
    maps: &[u32],
    psbt: Psbt,
    m: u64,
    key_type: u8,
) -> Result<Listed, PsbtError>
    ensures { told_listing result
        ≡ told_listing (list file.now key_type (held file.now pairs.now maps.now psbt m)) }
{
    lookup::list(file, pairs, maps, psbt, m, key_type)
}

// Pair number `i` of a map: where its key and its value stand.
pub fn nth(
    file: &[u8],
    pairs: &[u32],
    maps: &[u32],
    psbt: Psbt,
    m: u64,
    i: usize,
) -> Result<PairEntry, PsbtError>
    ensures { told_nth result ≡ told_nth (nth i (held file.now pairs.now maps.now psbt m)) }
{
    lookup::nth(file, pairs, maps, psbt, m, i)
}

// Its key, as the part of the file itself: empty for a refusal.
pub fn nth_key<'a>(
    file: &'a [u8],
    pairs: &[u32],
    maps: &[u32],
    psbt: Psbt,
    m: u64,
    i: usize,
) -> &'a [u8]
    ensures { result.now ≡ key_part file.now (nth i (held file.now pairs.now maps.now psbt m)) }
{
    lookup::nth_key(file, pairs, maps, psbt, m, i)
}

// Its value, likewise.
pub fn nth_value<'a>(
    file: &'a [u8],
    pairs: &[u32],
    maps: &[u32],
    psbt: Psbt,
    m: u64,
    i: usize,
) -> &'a [u8]
    ensures { result.now ≡ value_part file.now (nth i (held file.now pairs.now maps.now psbt m)) }
{
    lookup::nth_value(file, pairs, maps, psbt, m, i)
}
