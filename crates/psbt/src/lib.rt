// Reading a file into two lent tables: `parse`.
#![tactic(auto)]

ghost use Rattle.std.specs.Prelude.{◌≡◌, length, take};
ghost use Rattle.format.specs.Keys.{same};
ghost use Rattle.format.specs.Rules.{kind_of};
ghost use Rattle.format.specs.Content.{magic};
ghost use Rattle.format.specs.Parse.{out, parsed};
ghost use Rattle.format.specs.Told.{told_with, told_parsed, told_parse};
ghost use Rattle.psbt.specs.Leans.{maps_read};
ghost use Rattle.psbt.specs.Steps.{Places, InLimit, step_at};

use entries::{has_map_room, has_pair_room, write_map, write_pair};
use format::{LIMIT, MapEntry, MapKind, PairEntry, Parsed, PsbtError};
use keys::compare;
use known_so_far::{Known, Next, after_map, first_map, note_pair};
use parsed_map::{Item, next_item};

// One pair or the end of a map of this kind, at the front of the file's remaining part, which begins at `at`; places
// count from the file's front, and a map's end tells the place behind it.
fn step_at(rest: &[u8], last: &[u8], at: usize, kind: MapKind) -> Result<Item, PsbtError>
    requires { Places (length rest.now) at }
    ensures { result ≡ step_at rest.now last.now at (kind_of kind) }
{
    match next_item(rest, last, kind)? {
        Item::Over(used) => Ok(Item::Over(at + used)),
        Item::One(e) => Ok(Item::One(PairEntry {
            key: at + e.key,
            value: at + e.value,
            ..e
        })),
    }
}

// The maps of a file, read into two tables: four words for each pair, two for each map.
fn read_maps(file: &[u8], pairs: &mut [u32], maps: &mut [u32]) -> Parsed
    requires { InLimit (length file.now) }
    ensures { out result pairs.new maps.new ≡ maps_read file.now pairs.old maps.old }
{
    let mut known = first_map();
    let mut at: usize = 5;
    let mut p: usize = 0;
    let mut m: usize = 0;
    // Kept: two loops without a count, since only what is read says whether another map or another pair follows.
    'maps: loop {
        if !has_map_room(maps, m) {
            break 'maps Parsed::Refused {
                error: PsbtError::MapsFull,
                pairs: p,
                maps: m,
            };
        }
        let first = p;
        let mut la: usize = at;
        let mut le: usize = at;
        loop {
            let x = match step_at(&file[at..], &file[la..le], at, known.kind) {
                Ok(x) => x,
                Err(e) => {
                    break 'maps Parsed::Refused {
                        error: e,
                        pairs: p,
                        maps: m,
                    };
                }
            };
            match x {
                Item::Over(to) => {
                    at = to;
                    break;
                }
                Item::One(entry) => {
                    if !has_pair_room(pairs, p) {
                        break 'maps Parsed::Refused {
                            error: PsbtError::PairsFull,
                            pairs: p,
                            maps: m,
                        };
                    }
                    write_pair(pairs, p, entry);
                    let value = entry.value;
                    la = entry.key;
                    le = entry.key + entry.klen;
                    at = value + entry.vlen;
                    p += 1;
                    known = note_pair(known, &file[la..le], &file[value..at]);
                }
            }
        }
        write_map(
            maps,
            m,
            MapEntry {
                first,
                count: p - first,
            },
        );
        m += 1;
        let t = match after_map(known, at < file.len()) {
            Ok(t) => t,
            Err(e) => {
                break 'maps Parsed::Refused {
                    error: e,
                    pairs: p,
                    maps: m,
                };
            }
        };
        match t {
            Next::Done(psbt) => {
                break 'maps Parsed::Accepted {
                    psbt,
                    pairs: p,
                    maps: m,
                };
            }
            Next::Map(v) => {
                known = v;
            }
        }
    }
}

// The five bytes that every file begins with.
fn has_magic(file: &[u8]) -> bool
    ensures { result ≡ same (take 5 file.now) magic }
{
    if file.len() < 5 {
        return false;
    }
    compare(&file[..5], b"psbt\xff").is_eq()
}

// Parses a file into a pair table and a map table. Each entry is told by the definitions; both tables keep everything
// that is not an entry of a pair accepted or of a map ended.
pub fn parse(file: &[u8], pairs: &mut [u32], maps: &mut [u32]) -> Parsed
    ensures { told_with (told_parsed result) pairs.new maps.new
        ≡ told_parse (parsed file.now pairs.old maps.old) }
{
    if LIMIT < file.len() {
        return Parsed::Refused {
            error: PsbtError::TooLong,
            pairs: 0,
            maps: 0,
        };
    }
    if !has_magic(file) {
        return Parsed::Refused {
            error: PsbtError::InvalidMagic,
            pairs: 0,
            maps: 0,
        };
    }
    read_maps(file, pairs, maps)
}
