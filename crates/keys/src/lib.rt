// The order of keys: byte by byte, a prefix first.
#![tactic(auto)]

ghost use Rattle.std.specs.Prelude.{◌≡◌, [], ◌+◌, ◌≤◌, length};
ghost use Rattle.format.specs.Keys.{order, key_of, same};
ghost use Rattle.keys.specs.Fronts.{block_at, Front};

use std::cmp::Ordering;
use wire::{u32_from_le_bytes, u64_from_le_bytes};

// The four bytes from `i` on as one number.
fn four_at(s: &[u8], i: usize) -> u32
    requires { i + 4 ≤ length s.now }
    ensures { result ≡ block_at 4 s.now i }
{
    u32_from_le_bytes(&s[i..i + 4])
}

// The eight bytes from `i` on as one number.
fn eight_at(s: &[u8], i: usize) -> u64
    requires { i + 8 ≤ length s.now }
    ensures { result ≡ block_at 8 s.now i }
{
    u64_from_le_bytes(&s[i..i + 8])
}

// A place that both keys reach alike, eight bytes at a time: the order from there on is theirs.
fn same_front(a: &[u8], b: &[u8]) -> usize
    ensures { Front a.now b.now result }
{
    let mut i: usize = 0;
    // Kept: a `for` over the blocks made a comparison 2 to 15 per cent slower on keys of 1 to 9 bytes, which are the most.
    while i + 8 <= a.len() {
        if b.len() < i + 8 {
            return i;
        }
        if eight_at(a, i) != eight_at(b, i) {
            return i;
        }
        i += 8;
    }
    i
}

// Four bytes on from such a place, where both have the same.
fn same_four(a: &[u8], b: &[u8], i: usize) -> usize
    requires { Front a.now b.now i }
    ensures { Front a.now b.now result }
{
    if a.len() < i + 4 {
        return i;
    }
    if b.len() < i + 4 {
        return i;
    }
    if four_at(a, i) != four_at(b, i) {
        return i;
    }
    i + 4
}

// How `a` stands to `b`: what is left behind equal blocks is compared byte by byte.
fn compare_blocks(a: &[u8], b: &[u8]) -> Ordering
    ensures { result ≡ order a.now b.now }
{
    let start = same_four(a, b, same_front(a, b));
    for i in start..a.len().min(b.len()) {
        if a[i] < b[i] {
            return Ordering::Less;
        }
        if b[i] < a[i] {
            return Ordering::Greater;
        }
    }
    if a.len() < b.len() {
        Ordering::Less
    } else if b.len() < a.len() {
        Ordering::Greater
    } else {
        Ordering::Equal
    }
}

// The same, told by the first bytes where these differ, as they mostly do.
pub fn compare(a: &[u8], b: &[u8]) -> Ordering
    ensures { result ≡ order a.now b.now }
{
    if b.is_empty() {
        return compare_blocks(a, b);
    }
    if a.is_empty() {
        return Ordering::Less;
    }
    if a[0] < b[0] {
        return Ordering::Less;
    }
    if b[0] < a[0] {
        return Ordering::Greater;
    }
    compare_blocks(a, b)
}

// A key is a type without data.
pub fn is_bare(key: &[u8], key_type: u8) -> bool
    ensures { result ≡ same (key_of key_type []) key.now }
{
    key.len() == 1 && key[0] == key_type
}
