// MuSig2: nonces, signatures and participants, by keys that are put together of parts.
#![tactic(auto)]

ghost use Rattle.std.specs.Prelude.{◌≡◌, true, ◌+◌, ◌≤◌, ◌++◌, length, Ok};
ghost use Rattle.format.specs.Keys.{key_of};
ghost use Rattle.format.specs.Tables.{holds};
ghost use Rattle.format.specs.Lookups.{asked};
ghost use Rattle.format.specs.Fields.{leaf_fits, musig_lookup, participant_count, participant};
ghost use Rattle.entries.specs.Words.{pair_count};
ghost use Rattle.fitness.specs.Fits.{entries_of};
ghost use Rattle.lookup.specs.Finds.{length_of, Lies};
ghost use Rattle.musig2.specs.Joined.{key_fits_def, musig_fits};

use format::{MapEntry, PUBKEY_LEN, Part, PsbtError};
use lookup::Wanted;

pub mod input;
pub mod output;

// How many bytes a leaf hash has.
const LEAF_LEN: usize = 32;

// The longest key data: a participant, an aggregate key and a leaf hash.
const KEY_LEN: usize = 98;

// A leaf hash is whole or left out.
fn leaf_fits(leaf: &[u8]) -> bool
    ensures { result ≡ leaf_fits leaf.now }
{
    leaf.len() == 0 || leaf.len() == LEAF_LEN
}

// An aggregate key is a public key, and its leaf hash fits.
fn key_fits(aggregate: &[u8], leaf: &[u8]) -> bool
    ensures { result ≡ key_fits_def aggregate.now leaf.now }
{
    aggregate.len() == PUBKEY_LEN && leaf_fits(leaf)
}

// A participant is a public key too.
fn musig_fits(participant: &[u8], aggregate: &[u8], leaf: &[u8]) -> bool
    ensures { result ≡ musig_fits participant.now aggregate.now leaf.now }
{
    participant.len() == PUBKEY_LEN && key_fits(aggregate, leaf)
}

// A lookup by a key of three parts, put together in an array.
fn joined_lookup(
    file: &[u8],
    pairs: &[u32],
    m: MapEntry,
    wanted: Wanted,
    key_type: u8,
    a: &[u8],
    b: &[u8],
    c: &[u8],
) -> Result<Option<Part>, PsbtError>
    requires within { m.first + m.count ≤ pair_count pairs.now }
    requires short { length a.now + length b.now + length c.now ≤ 98 }
    ensures { result ≡ asked true (length_of wanted) file.now (key_of key_type (a.now ++ (b.now ++ c.now)))
        (holds (entries_of pairs.now m)) }
{
    let mut key = [0u8; KEY_LEN];
    let n = a.len() + b.len();
    let e = n + c.len();
    writer::put_bytes(&mut key, 0, a);
    writer::put_bytes(&mut key, a.len(), b);
    writer::put_bytes(&mut key, n, c);
    lookup::asked_in(file, pairs, m, true, wanted, key_type, &key[..e])
}

// A MuSig2 lookup asks participant, aggregate and perhaps leaf hash.
fn musig_lookup(
    file: &[u8],
    pairs: &[u32],
    m: MapEntry,
    key_type: u8,
    width: usize,
    participant: &[u8],
    aggregate: &[u8],
    leaf: &[u8],
) -> Result<Option<Part>, PsbtError>
    requires { m.first + m.count ≤ pair_count pairs.now }
    ensures { result ≡ musig_lookup key_type width file.now participant.now aggregate.now leaf.now
        (holds (entries_of pairs.now m)) }
{
    if !musig_fits(participant, aggregate, leaf) {
        return Err(PsbtError::BadValue);
    }
    joined_lookup(
        file,
        pairs,
        m,
        Wanted::Exactly(width),
        key_type,
        participant,
        aggregate,
        leaf,
    )
}

// How many participants a list has.
fn participant_count(list: Option<Part>) -> Option<u64>
    ensures { Ok result ≡ participant_count (Ok list) }
{
    list.map(|p| (p.len / PUBKEY_LEN) as u64)
}

// Participant number `i` of a list.
fn nth_participant(file: &[u8], list: Option<Part>, i: usize) -> Result<Option<Part>, PsbtError>
    requires { Lies file.now (Ok list) }
    ensures { result ≡ participant i (Ok list) }
{
    match list {
        None => Ok(None),
        Some(p) if i < p.len / PUBKEY_LEN => Ok(Some(Part {
            start: p.start + PUBKEY_LEN * i,
            len: PUBKEY_LEN,
        })),
        Some(_) => Err(PsbtError::OutOfRange),
    }
}
