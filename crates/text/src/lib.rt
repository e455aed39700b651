// Text put into a lent buffer piece by piece, as far as it has room: bytes, hex digits, decimal numbers.
#![tactic(auto)]

ghost use Rattle.std.specs.Prelude.{◌≡◌, ◌<◌};
ghost use Rattle.text.specs.Spots.{spot, lay_byte, lay};
ghost use Rattle.text.specs.Spelled.{digit as Spelled·digit, hex_byte, hex, hex_or_dash, decimal, signed_decimal};

use writer::bits_of;

// The most digits of a number of 64 bits.
const DIGITS: usize = 20;

// One more than the greatest number of 32 bits.
const WRAP: u64 = 0x1_0000_0000;

// Puts a byte at `at` and answers the place behind it. Where there is no room, nothing is put.
pub fn put_byte(out: &mut [u8], at: usize, byte: u8) -> usize
    ensures { spot result out.new ≡ lay_byte (spot at out.old) byte }
{
    if out.len() <= at {
        return at;
    }
    out[at] = byte;
    at + 1
}

// Puts `text` at `at`, as far as there is room, and answers the place behind it.
pub fn put(out: &mut [u8], at: usize, text: &[u8]) -> usize
    ensures { spot result out.new ≡ lay (spot at out.old) text.now }
{
    let mut to = at;
    for byte in text {
        to = put_byte(out, to, *byte);
    }
    to
}

// A digit below 16.
fn digit(d: u8) -> u8
    requires { d < 16 }
    ensures { result ≡ Spelled·digit d }
{
    if d < 10 { b'0' + d } else { b'a' - 10 + d }
}

// A byte in two hex digits, the higher first.
// Kept: `write!` promises the bytes only where it succeeds, and no clause says that it does into a lent buffer with room.
pub fn put_hex_byte(out: &mut [u8], at: usize, byte: u8) -> usize
    ensures { spot result out.new ≡ lay (spot at out.old) (hex_byte byte) }
{
    let to = put_byte(out, at, digit(byte / 16));
    put_byte(out, to, digit(byte % 16))
}

// Bytes in hex.
pub fn put_hex(out: &mut [u8], at: usize, bytes: &[u8]) -> usize
    ensures { spot result out.new ≡ lay (spot at out.old) (hex bytes.now) }
{
    let mut to = at;
    for byte in bytes {
        to = put_hex_byte(out, to, *byte);
    }
    to
}

// Bytes in hex, `-` where there are none.
pub fn put_hex_or_dash(out: &mut [u8], at: usize, bytes: &[u8]) -> usize
    ensures { spot result out.new ≡ lay (spot at out.old) (hex_or_dash bytes.now) }
{
    if bytes.is_empty() {
        return put_byte(out, at, b'-');
    }
    put_hex(out, at, bytes)
}

// A number in decimal.
pub fn put_decimal(out: &mut [u8], at: usize, n: u64) -> usize
    ensures { spot result out.new ≡ lay (spot at out.old) (decimal n) }
{
    let mut digits = [0u8; DIGITS];
    let k = io::decimal(n, &mut digits);
    put(out, at, &digits[..k])
}

// A number that may be negative, in decimal.
pub fn put_signed(out: &mut [u8], at: usize, n: i32) -> usize
    ensures { spot result out.new ≡ lay (spot at out.old) (signed_decimal n) }
{
    let bits = bits_of(n);
    if n < 0 {
        let to = put_byte(out, at, b'-');
        return put_decimal(out, to, WRAP - bits);
    }
    put_decimal(out, at, bits)
}
