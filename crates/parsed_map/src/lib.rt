// What stands at the front of a file's remaining part: a pair, a map's end, or a refusal.
#![tactic(auto)]

ghost use Rattle.std.specs.Prelude.{◌≡◌, length};
ghost use Rattle.format.specs.Keys.{order};
ghost use Rattle.format.specs.Rules.{kind_of};
ghost use Rattle.parsed_map.specs.Fronts.{head_of, order_rule, KeyIn, value_of, item_of};

use format::{MapKind, PairEntry, PsbtError};
use std::cmp::Ordering;
use wire::Cursor;

// What stands where a pair may begin. Places count from the front.
#[derive(Clone, Copy)]
pub enum Item {
    // The map's end: how many bytes it takes.
    Over(usize),
    // A pair: where its key and its value stand, and how long they are.
    One(PairEntry),
}

// What stands where a key may begin.
#[derive(Clone, Copy)]
pub enum Head {
    // The map's end: how many bytes it takes.
    Over(usize),
    Key { key: usize, klen: usize },
}

// The key at the front; a length of 0 is the map's end.
fn key_at(rest: &[u8]) -> Result<Head, PsbtError>
    ensures { result ≡ head_of rest.now }
{
    let (value, next) = Cursor::new(0).read_compact_size(rest)?;
    let klen = value as usize;
    if klen == 0 {
        return Ok(Head::Over(next.pos));
    }
    let (key, _) = next.take(rest, klen)?;
    Ok(Head::Key { key, klen })
}

// Keys rise: a key comes after the last one.
fn check_order(last: &[u8], key: &[u8]) -> Result<(), PsbtError>
    ensures { result ≡ order_rule (order last.now key.now) }
{
    match keys::compare(last, key) {
        Ordering::Less => Ok(()),
        Ordering::Equal => Err(PsbtError::DuplicateKey),
        Ordering::Greater => Err(PsbtError::UnsortedKeys),
    }
}

// The pair whose key is given: its value, and then its field rule.
fn value_at(rest: &[u8], key: usize, klen: usize, kind: MapKind) -> Result<Item, PsbtError>
    requires { KeyIn (length rest.now) key klen }
    ensures { result ≡ value_of (kind_of kind) rest.now key klen }
{
    let (value, next) = Cursor::new(key + klen).read_len_prefixed(rest)?;
    let front = &rest[value.start..next.pos];
    fields::field_rule(kind, rest[key], klen - 1, value.len, front)?;
    Ok(Item::One(PairEntry {
        key,
        klen,
        value: value.start,
        vlen: value.len,
    }))
}

// The item at the front of `rest`, in a map of this kind whose last key is `last`: empty before the
// map's first. The order of the keys is tested before the value is read.
pub fn next_item(rest: &[u8], last: &[u8], kind: MapKind) -> Result<Item, PsbtError>
    ensures { result ≡ item_of (kind_of kind) last.now rest.now }
{
    match key_at(rest)? {
        Head::Over(used) => Ok(Item::Over(used)),
        Head::Key { key, klen } => {
            check_order(last, &rest[key..key + klen])?;
            value_at(rest, key, klen, kind)
        }
    }
}
