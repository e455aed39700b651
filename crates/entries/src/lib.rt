// The entries of both lent tables, read and written. Nothing else knows which words an entry takes.
#![tactic(auto)]

ghost use Rattle.std.specs.Prelude.{◌≡◌, ◌+◌, ◌<◌, ◌≤◌, length, take, drop};
ghost use Rattle.std.specs.Iterator.{YieldsFirst, item_count};
ghost use Rattle.format.specs.Entries.{pair_words, map_words, has_room_def, put_pair, put_map, pair_entries};
ghost use Rattle.entries.specs.Words.{pair_count, map_count, pair_from, map_from, pair_at, map_at, PairFits, MapFits};
ghost use Rattle.entries.specs.Walks.{pairs_left};

use format::{MapEntry, PairEntry};

// How many words a pair's entry takes.
const PAIR_WORDS: usize = 4;

// How many words a map's entry takes.
// Kept: pairs and maps have functions apart, of a few lines each. A trait over both would have to hand over arrays of as many
// words as each kind says, and an array's length can't be computed from a type's constant.
const MAP_WORDS: usize = 2;

// A table of entries of `words` words each has entry number `n` whole.
fn has_room(table: &[u32], words: usize, n: usize) -> bool
    requires { 0 < words }
    ensures { result ≡ has_room_def words n table.now }
{
    n < table.len() / words
}

// A pair table has entry number `n` whole.
pub fn has_pair_room(pairs: &[u32], n: usize) -> bool
    ensures { result ≡ has_room_def pair_words n pairs.now }
{
    has_room(pairs, PAIR_WORDS, n)
}

// A map table has entry number `n` whole.
pub fn has_map_room(maps: &[u32], n: usize) -> bool
    ensures { result ≡ has_room_def map_words n maps.now }
{
    has_room(maps, MAP_WORDS, n)
}

// Writes entry number `n` of a pair table.
pub fn write_pair(pairs: &mut [u32], n: usize, e: PairEntry)
    requires { PairFits pairs.old n e }
    ensures { pairs.new ≡ put_pair pairs.old n e }
{
    let at = n * PAIR_WORDS;
    pairs[at] = e.key as u32;
    pairs[at + 1] = e.klen as u32;
    pairs[at + 2] = e.value as u32;
    pairs[at + 3] = e.vlen as u32;
}

// Writes entry number `n` of a map table.
pub fn write_map(maps: &mut [u32], n: usize, e: MapEntry)
    requires { MapFits maps.old n e }
    ensures { maps.new ≡ put_map maps.old n e }
{
    let at = n * MAP_WORDS;
    maps[at] = e.first as u32;
    maps[at + 1] = e.count as u32;
}

// How many whole entries a pair table has.
pub fn pair_count(pairs: &[u32]) -> usize
    ensures { result ≡ pair_count pairs.now }
{
    pairs.len() / PAIR_WORDS
}

// How many whole entries a map table has.
pub fn map_count(maps: &[u32]) -> usize
    ensures { result ≡ map_count maps.now }
{
    maps.len() / MAP_WORDS
}

// The entry of a pair whose words begin at `at`.
fn pair_from(pairs: &[u32], at: usize) -> PairEntry
    requires { at + pair_words ≤ length pairs.now }
    ensures { result ≡ pair_from pairs.now at }
{
    PairEntry {
        key: pairs[at] as usize,
        klen: pairs[at + 1] as usize,
        value: pairs[at + 2] as usize,
        vlen: pairs[at + 3] as usize,
    }
}

// The entry of a map whose words begin at `at`.
fn map_from(maps: &[u32], at: usize) -> MapEntry
    requires { at + map_words ≤ length maps.now }
    ensures { result ≡ map_from maps.now at }
{
    MapEntry {
        first: maps[at] as usize,
        count: maps[at + 1] as usize,
    }
}

// Entry number `i` of a pair table.
pub fn pair_entry(pairs: &[u32], i: usize) -> PairEntry
    requires { i < pair_count pairs.now }
    ensures { result ≡ pair_at pairs.now i }
{
    pair_from(pairs, i * PAIR_WORDS)
}

// Entry number `i` of a map table.
pub fn map_entry(maps: &[u32], i: usize) -> MapEntry
    requires { i < map_count maps.now }
    ensures { result ≡ map_at maps.now i }
{
    map_from(maps, i * MAP_WORDS)
}

// A walk over entries of a pair table, one by one.
#[derive(Drop)]
pub struct Pairs<'a> {
    words: &'a [u32],
}

impl Iterator for Pairs<'_> {
    type Item = PairEntry;

    ghost next_gives = { YieldsFirst pairs_left };

    ghost remaining = { item_count pairs_left };

    // The next entry.
    fn next(&mut self) -> Option<PairEntry> {
        let [key, klen, value, vlen, rest @ ..] = self.words else {
            return None;
        };
        self.words = rest;
        Some(PairEntry {
            key: *key as usize,
            klen: *klen as usize,
            value: *value as usize,
            vlen: *vlen as usize,
        })
    }
}

// The entries of the pairs that a map's entry names, in order.
pub fn pairs_of(pairs: &[u32], m: MapEntry) -> Pairs<'_>
    requires { m.first + m.count ≤ pair_count pairs.now }
    ensures { pairs_left result ≡ take m.count (drop m.first (pair_entries pairs.now)) }
{
    let rest = &pairs[m.first * PAIR_WORDS..];
    Pairs {
        words: &rest[..m.count * PAIR_WORDS],
    }
}
