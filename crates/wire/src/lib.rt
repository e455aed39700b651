// Little-endian numbers, compact sizes, and a cursor that reads them.
#![tactic(auto)]

ghost use Rattle.std.specs.Prelude.{◌≡◌, ◌≤◌, length};
ghost use Rattle.format.specs.Numbers.{le, signed};
ghost use Rattle.format.specs.Compact.{size, count, count_by_def};
ghost use Rattle.wire.specs.Leads.{lead, spelled, width, Long};
ghost use Rattle.wire.specs.Cursors.{cursor, remaining, take_at_def, size_at, prefixed_at};

use format::{CompactSize, Part, PsbtError};

// The number that at most eight bytes spell, the lowest byte first.
fn le(s: &[u8]) -> u64
    requires { length s.now ≤ 8 }
    ensures { result ≡ le s.now }
{
    let mut v = 0;
    for &b in s.iter().rev() {
        v = v * 256 + b as u64;
    }
    v
}

// The number that the first `w` bytes spell, or all where there are fewer.
fn lead(s: &[u8], w: usize) -> u64
    requires { w ≤ 8 }
    ensures { result ≡ lead w s.now }
{
    if w <= s.len() { le(&s[..w]) } else { le(s) }
}

// The number of the first four bytes.
pub fn u32_from_le_bytes(s: &[u8]) -> u32
    ensures { result ≡ lead 4 s.now }
{
    lead(s, 4) as u32
}

// The number of the first eight bytes.
pub fn u64_from_le_bytes(s: &[u8]) -> u64
    ensures { result ≡ lead 8 s.now }
{
    lead(s, 8)
}

// 32 bits read as a signed number.
pub fn signed(x: u32) -> i32
    ensures { result ≡ signed x }
{
    x.cast_signed()
}

// A number that `used` of `len` bytes spell: the refusal where there are fewer.
fn spelled(len: usize, used: usize, value: u64) -> Result<CompactSize, PsbtError>
    ensures { result ≡ spelled len used value }
{
    if used <= len {
        Ok(CompactSize { value, used })
    } else {
        Err(PsbtError::UnexpectedEof)
    }
}

// How many bytes follow fd, fe or ff.
fn width(b: u8) -> usize
    ensures { result ≡ width b }
{
    match b {
        0xfd => 2,
        0xfe => 4,
        _ => 8,
    }
}

// A compact size of more than one byte.
fn read_long(s: &[u8]) -> Result<CompactSize, PsbtError>
    requires { Long s.now }
    ensures { result ≡ size s.now }
{
    let w = width(s[0]);
    spelled(s.len(), w + 1, lead(&s[1..], w))
}

// A compact size at the front of some bytes: one byte up to fc, or a longer form.
pub fn read_size(s: &[u8]) -> Result<CompactSize, PsbtError>
    ensures { result ≡ size s.now }
{
    if s.is_empty() {
        return Err(PsbtError::UnexpectedEof);
    }
    let b = s[0];
    if b < 0xfd {
        return Ok(CompactSize {
            value: b as u64,
            used: 1,
        });
    }
    read_long(s)
}

// A place in a buffer.
#[derive(Clone, Copy)]
pub struct Cursor {
    pub pos: usize,
}

impl Cursor {
    // The cursor at a place.
    pub fn new(pos: usize) -> Self
        ensures { result ≡ cursor pos }
    {
        Self { pos }
    }

    // How many bytes are left: past the end none.
    pub fn remaining(self, buf: &[u8]) -> usize
        ensures { result ≡ remaining buf.now self.pos }
    {
        buf.len().saturating_sub(self.pos)
    }

    // The next `n` bytes: where they stand, and the cursor behind them.
    pub fn take(self, buf: &[u8], n: usize) -> Result<(usize, Cursor), PsbtError>
        ensures { result ≡ take_at_def buf.now self.pos n }
    {
        let start = self.pos;
        if self.remaining(buf) < n {
            return Err(PsbtError::UnexpectedEof);
        }
        Ok((start, Cursor::new(start + n)))
    }

    // The compact size that stands there, and the cursor behind it.
    pub fn read_compact_size(self, buf: &[u8]) -> Result<(u64, Cursor), PsbtError>
        ensures { result ≡ size_at buf.now self.pos }
    {
        let pos = self.pos;
        if buf.len() < pos {
            return Err(PsbtError::UnexpectedEof);
        }
        let size = read_size(&buf[pos..])?;
        Ok((size.value, Cursor::new(pos + size.used)))
    }

    // The bytes that stand there behind their length, a compact size, and the cursor behind them.
    pub fn read_len_prefixed(self, buf: &[u8]) -> Result<(Part, Cursor), PsbtError>
        ensures { result ≡ prefixed_at buf.now self.pos }
    {
        let (value, next) = self.read_compact_size(buf)?;
        let len = value as usize;
        let (start, end) = next.take(buf, len)?;
        Ok((Part { start, len }, end))
    }
}

// What a count field's value of `len` bytes says, judged by its front: its first nine bytes are enough.
pub fn count_of(len: usize, front: &[u8]) -> Result<CompactSize, PsbtError>
    ensures { result ≡ count_by_def len (size front.now) }
{
    match read_size(front) {
        Err(e) => {
            if len <= 1 {
                Err(e)
            } else {
                Err(PsbtError::InvalidCompactSize)
            }
        }
        Ok(CompactSize { value, used }) => {
            if len == used {
                Ok(CompactSize { value, used })
            } else {
                Err(PsbtError::InvalidCompactSize)
            }
        }
    }
}

// What a count field's value says: one compact size, whole.
pub fn u64_from_compact_size(data: &[u8]) -> Result<CompactSize, PsbtError>
    ensures { result ≡ count «data».now }
{
    count_of(data.len(), data)
}
