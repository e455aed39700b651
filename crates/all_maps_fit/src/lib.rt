// All reported maps at once: whether each is fit, and the fields of one that is.
#![tactic(auto)]

ghost use Rattle.std.specs.Prelude.{◌≡◌, map, ◌+◌, ◌<◌, ◌≤◌};
ghost use Rattle.format.specs.Content.{field};
ghost use Rattle.format.specs.Entries.{shown};
ghost use Rattle.format.specs.Tables.{view, gather, maps_reported};
ghost use Rattle.format.specs.Locks.{sized_to, in_of};
ghost use Rattle.entries.specs.Words.{pair_count, map_count, map_at};
ghost use Rattle.fitness.specs.Fits.{entries_of};
ghost use Rattle.all_maps_fit.specs.Alls.{ruled_by, Usable};
ghost use Rattle.all_maps_fit.specs.Places.{field_at, sized_at, sized_in, noted_at, note_input, input_in};

use format::{
    MapEntry, PSBT_IN_OUTPUT_INDEX, PSBT_IN_PREVIOUS_TXID, PSBT_IN_REQUIRED_HEIGHT_LOCKTIME,
    PSBT_IN_REQUIRED_TIME_LOCKTIME, PSBT_IN_SEQUENCE, PairEntry, Part, Psbt, PsbtError,
};

// Where a field stands that must have some number of bytes.
#[derive(Clone, Copy)]
pub enum SizedAt {
    Missing,
    Misfit,
    At { start: usize },
}

// Each reported map is fit, or the refusal of the first that is not.
pub fn all_fit(file: &[u8], pairs: &[u32], maps: &[u32], psbt: Psbt) -> Result<(), PsbtError>
    ensures { result ≡ ruled_by (gather (view file.now pairs.now maps.now psbt) 0 (maps_reported psbt)) }
{
    // Where the number of maps passes 64 bits, one that the table doesn't have is refused before.
    let reported = psbt.inputs.saturating_add(psbt.outputs).saturating_add(1);
    for m in 0..reported {
        fitness::fit_map(file, pairs, maps, psbt, m)?;
    }
    Ok(())
}

// The map entry of input number `i`.
pub fn input_entry(maps: &[u32], i: u64) -> MapEntry
    requires { 1 + i < map_count maps.now }
    ensures { result ≡ map_at maps.now (1 + i) }
{
    entries::map_entry(maps, (1 + i) as usize)
}

// The map entry of output number `i`.
pub fn output_entry(maps: &[u32], psbt: Psbt, i: u64) -> MapEntry
    requires { 1 + psbt.inputs + i < map_count maps.now }
    ensures { result ≡ map_at maps.now (1 + psbt.inputs + i) }
{
    entries::map_entry(maps, (1 + psbt.inputs + i) as usize)
}

// The field of a type without key data, in a map whose pairs are in the table.
pub fn found_field(file: &[u8], pairs: &[u32], m: MapEntry, key_type: u8) -> Option<Part>
    requires { m.first + m.count ≤ pair_count pairs.now }
    ensures { result ≡ field_at file.now pairs.now key_type m }
{
    lookup::find_place(file, pairs, m, key_type, &file[..0])
}

// The field that was found, by whether it has `width` bytes.
fn sized(found: Option<Part>, width: usize) -> SizedAt
    ensures { result ≡ sized_at width found }
{
    match found {
        None => SizedAt::Missing,
        Some(p) if p.len == width => SizedAt::At { start: p.start },
        Some(_) => SizedAt::Misfit,
    }
}

// The field of a type that must have `width` bytes, in a map that is fit.
pub fn sized_field(file: &[u8], pairs: &[u32], m: MapEntry, key_type: u8, width: usize) -> SizedAt
    requires { Usable file.now pairs.now m }
    ensures { sized_in width file.now result
        ≡ sized_to width (field key_type (map (shown file.now) (entries_of pairs.now m))) }
{
    sized(found_field(file, pairs, m, key_type), width)
}

// Where the fields of an input stand that the lock and the transaction take.
#[derive(Clone, Copy)]
pub struct InputAt {
    pub txid: SizedAt,
    pub index: SizedAt,
    pub sequence: SizedAt,
    pub time: SizedAt,
    pub height: SizedAt,
}

// A field of `width` bytes after a pair, which is its own or isn't.
fn noted(old: SizedAt, own: bool, width: usize, e: PairEntry) -> SizedAt
    ensures { result ≡ noted_at old own width e }
{
    match old {
        SizedAt::Missing => {
            if !own {
                return old;
            }
            let value = Part {
                start: e.value,
                len: e.vlen,
            };
            sized(Some(value), width)
        }
        SizedAt::Misfit => old,
        SizedAt::At { .. } => old,
    }
}

// The fields of an input after a pair.
fn note_input(file: &[u8], old: InputAt, e: PairEntry) -> InputAt
    ensures { result ≡ note_input file.now old e }
{
    let key = fitness::key_in(file, e);
    if key.len() != 1 {
        return old;
    }
    InputAt {
        txid: noted(old.txid, keys::is_bare(key, PSBT_IN_PREVIOUS_TXID), 32, e),
        index: noted(old.index, keys::is_bare(key, PSBT_IN_OUTPUT_INDEX), 4, e),
        sequence: noted(old.sequence, keys::is_bare(key, PSBT_IN_SEQUENCE), 4, e),
        time: noted(
            old.time,
            keys::is_bare(key, PSBT_IN_REQUIRED_TIME_LOCKTIME),
            4,
            e,
        ),
        height: noted(
            old.height,
            keys::is_bare(key, PSBT_IN_REQUIRED_HEIGHT_LOCKTIME),
            4,
            e,
        ),
    }
}

// The fields of an input, in one walk over its pairs.
pub fn input_at(file: &[u8], pairs: &[u32], m: MapEntry) -> InputAt
    requires { Usable file.now pairs.now m }
    ensures { input_in file.now result ≡ in_of (map (shown file.now) (entries_of pairs.now m)) }
{
    let mut at = InputAt {
        txid: SizedAt::Missing,
        index: SizedAt::Missing,
        sequence: SizedAt::Missing,
        time: SizedAt::Missing,
        height: SizedAt::Missing,
    };
    for e in entries::pairs_of(pairs, m) {
        at = note_input(file, at, e);
    }
    at
}
