// Writes numbers, compact sizes and parts into a lent buffer, at a place that has the room.
#![tactic(auto)]

ghost use Rattle.std.specs.Prelude.{◌≡◌, ◌∷◌, ◌+◌, ◌<◌, ◌≤◌, length};
ghost use Rattle.format.specs.Numbers.{bytes_of, unsigned};
ghost use Rattle.format.specs.Compact.{shortest};
ghost use Rattle.writer.specs.Writes.{wrote, size_length};

// The `width` lowest bytes of `value`, the lowest first.
pub fn put_le(buf: &mut [u8], at: usize, value: u64, width: usize)
    requires { at + width ≤ length buf.old }
    ensures { buf.new ≡ wrote buf.old at (bytes_of width value) }
{
    let mut left = value;
    for j in 0..width {
        buf[at + j] = (left % 256) as u8;
        left /= 256;
    }
}

// A byte, and then the `width` lowest bytes of `value`.
fn put_tagged(buf: &mut [u8], at: usize, tag: u8, value: u64, width: usize)
    requires { at + (1 + width) ≤ length buf.old }
    ensures { buf.new ≡ wrote buf.old at (tag ∷ bytes_of width value) }
{
    buf[at] = tag;
    put_le(buf, at + 1, value, width);
}

// The shortest compact size of `n`.
pub fn put_size(buf: &mut [u8], at: usize, n: u64)
    requires { at + size_length n ≤ length buf.old }
    ensures { buf.new ≡ wrote buf.old at (shortest n) }
{
    if n < 0xfd {
        put_le(buf, at, n, 1);
        return;
    }
    if n < 0x1_0000 {
        put_tagged(buf, at, 0xfd, n, 2);
        return;
    }
    if n < 0x1_0000_0000 {
        put_tagged(buf, at, 0xfe, n, 4);
        return;
    }
    put_tagged(buf, at, 0xff, n, 8);
}

// How many bytes the shortest compact size of `n` takes.
pub fn size_len(n: u64) -> usize
    ensures { result ≡ size_length n }
{
    if n < 0xfd {
        return 1;
    }
    if n < 0x1_0000 {
        return 3;
    }
    if n < 0x1_0000_0000 {
        return 5;
    }
    9
}

// The bytes of `src`.
pub fn put_bytes(buf: &mut [u8], at: usize, src: &[u8])
    requires { at + length src.now ≤ length buf.old }
    ensures { buf.new ≡ wrote buf.old at src.now }
{
    // Kept: no `copy_from_slice`, which the compiler doesn't see through: with it a buffer that is written and never read stays,
    // 64 KiB of stack and of zeros at each run of `why`.
    for j in 0..src.len() {
        buf[at + j] = src[j];
    }
}

// The 32 bits of a signed number.
pub fn bits_of(v: i32) -> u64
    ensures { result ≡ unsigned v }
{
    if v < 0 {
        (v as i64 + 0x1_0000_0000) as u64
    } else {
        v as u64
    }
}
