// Lines of text about the lock: what is asked, what decided it, and whether a transaction is given.
#![tactic(auto)]

ghost use Rattle.std.specs.Prelude.{◌≡◌};
ghost use Rattle.text.specs.Spots.{spot, lay};
ghost use Rattle.lock_lines.specs.Lines.{height_number, time_number, lock_text, fallback_text, head_line, height_text, time_text, input_name};
ghost use Rattle.lock_lines.specs.Lines.{input_line, lack_text, tx_line, outcome, fallback_decided, decided, height_decided, time_decided};
ghost use Rattle.lock_lines.specs.Lines.{refused_end, both_line, misread, too_great_line, too_small_line, malformed_line, verdict};

use format::{Lock, PsbtError, THRESHOLD, Written};
use reasons::{put_meaning, put_refused};
use text::{put, put_decimal};
use utc::put_date;

// `height N`
fn put_height_number(out: &mut [u8], at: usize, n: u64) -> usize
    ensures { spot result out.new ≡ lay (spot at out.old) (height_number n) }
{
    let to = put(out, at, b"height ");
    put_decimal(out, to, n)
}

// `time N (DATE)`
fn put_time_number(out: &mut [u8], at: usize, n: u64) -> usize
    ensures { spot result out.new ≡ lay (spot at out.old) (time_number n) }
{
    let to = put(out, at, b"time ");
    let to = put_decimal(out, to, n);
    let to = put(out, to, b" (");
    let to = put_date(out, to, n);
    put(out, to, b")")
}

// A lock number as the network reads it: none, a height or a time.
fn put_lock_text(out: &mut [u8], at: usize, n: u32) -> usize
    ensures { spot result out.new ≡ lay (spot at out.old) (lock_text n) }
{
    if n == 0 {
        return put(out, at, b"time 0: none");
    }
    if n < THRESHOLD {
        return put_height_number(out, at, n as u64);
    }
    put_time_number(out, at, n as u64)
}

// The fallback, or `none`.
fn put_fallback(out: &mut [u8], at: usize, m: Option<u32>) -> usize
    ensures { spot result out.new ≡ lay (spot at out.old) (fallback_text m) }
{
    match m {
        None => put(out, at, b"none"),
        Some(n) => put_lock_text(out, at, n),
    }
}

// `inputs N, fallback ..`
pub fn put_head(out: &mut [u8], at: usize, inputs: u64, fallback: Option<u32>) -> usize
    ensures { spot result out.new ≡ lay (spot at out.old) (head_line inputs fallback) }
{
    let to = put(out, at, b"inputs ");
    let to = put_decimal(out, to, inputs);
    let to = put(out, to, b", fallback ");
    let to = put_fallback(out, to, fallback);
    put(out, to, b"\n")
}

// A height that an input asks for, or `no height`.
fn put_height(out: &mut [u8], at: usize, h: Result<Option<u64>, PsbtError>) -> usize
    ensures { spot result out.new ≡ lay (spot at out.old) (height_text h) }
{
    match h {
        Err(_) => put(out, at, b"an unreadable height"),
        Ok(None) => put(out, at, b"no height"),
        Ok(Some(n)) => put_height_number(out, at, n),
    }
}

// A time that an input asks for, or `no time`.
fn put_time(out: &mut [u8], at: usize, t: Result<Option<u64>, PsbtError>) -> usize
    ensures { spot result out.new ≡ lay (spot at out.old) (time_text t) }
{
    match t {
        Err(_) => put(out, at, b"an unreadable time"),
        Ok(None) => put(out, at, b"no time"),
        Ok(Some(n)) => put_time_number(out, at, n),
    }
}

// An input, by its number.
fn put_input_name(out: &mut [u8], at: usize, i: u64) -> usize
    ensures { spot result out.new ≡ lay (spot at out.old) (input_name i) }
{
    let to = put(out, at, b"input ");
    put_decimal(out, to, i)
}

// What input number `i` asks for.
pub fn put_input(
    out: &mut [u8],
    at: usize,
    i: u64,
    h: Result<Option<u64>, PsbtError>,
    t: Result<Option<u64>, PsbtError>,
) -> usize
    ensures { spot result out.new ≡ lay (spot at out.old) (input_line i h t) }
{
    let to = put_input_name(out, at, i);
    let to = put(out, to, b" asks ");
    let to = put_height(out, to, h);
    let to = put(out, to, b" and ");
    let to = put_time(out, to, t);
    put(out, to, b"\n")
}

// What keeps a transaction from being given once the lock is decided.
fn put_lack(out: &mut [u8], at: usize, e: PsbtError) -> usize
    ensures { spot result out.new ≡ lay (spot at out.old) (lack_text e) }
{
    if e.number() == PsbtError::BadValue.number() {
        return put(
            out,
            at,
            b"an input has no txid or no index, or an output no amount",
        );
    }
    put_meaning(out, at, e)
}

// Whether a transaction is given.
fn put_tx(out: &mut [u8], at: usize, x: Result<Written, PsbtError>) -> usize
    ensures { spot result out.new ≡ lay (spot at out.old) (tx_line x) }
{
    match x {
        Err(e) => {
            let to = put(out, at, b"no transaction, refused ");
            let to = put_decimal(out, to, e.number() as u64);
            let to = put(out, to, b": ");
            let to = put_lack(out, to, e);
            put(out, to, b"\n")
        }
        Ok(tx) => {
            let to = put(out, at, b"transaction of ");
            let to = put_decimal(out, to, tx.len as u64);
            put(out, to, b" bytes\n")
        }
    }
}

// The lock time, and whether a transaction is given.
fn put_outcome(out: &mut [u8], at: usize, n: u32, x: Result<Written, PsbtError>) -> usize
    ensures { spot result out.new ≡ lay (spot at out.old) (outcome n x) }
{
    let to = put(out, at, b"lock ");
    let to = put_lock_text(out, to, n);
    let to = put(out, to, b"\n");
    put_tx(out, to, x)
}

// Nothing was asked for.
fn put_fallback_decided(out: &mut [u8], at: usize, n: u32, x: Result<Written, PsbtError>) -> usize
    ensures { spot result out.new ≡ lay (spot at out.old) (fallback_decided n x) }
{
    let to = put(out, at, b"no input asks for a lock: the fallback decides\n");
    put_outcome(out, to, n, x)
}

// What decided, the greatest asked for by input `i`.
fn put_decided(
    out: &mut [u8],
    at: usize,
    says: &[u8],
    n: u32,
    i: u64,
    x: Result<Written, PsbtError>,
) -> usize
    ensures { spot result out.new ≡ lay (spot at out.old) (decided says.now n i x) }
{
    let to = put(out, at, says);
    let to = put_input_name(out, to, i);
    let to = put(out, to, b"\n");
    put_outcome(out, to, n, x)
}

// Heights were asked for.
fn put_height_decided(
    out: &mut [u8],
    at: usize,
    n: u32,
    i: u64,
    x: Result<Written, PsbtError>,
) -> usize
    ensures { spot result out.new ≡ lay (spot at out.old) (height_decided n i x) }
{
    put_decided(out, at, b"the greatest height asked decides: ", n, i, x)
}

// Times were asked for.
fn put_time_decided(
    out: &mut [u8],
    at: usize,
    n: u32,
    i: u64,
    x: Result<Written, PsbtError>,
) -> usize
    ensures { spot result out.new ≡ lay (spot at out.old) (time_decided n i x) }
{
    put_decided(out, at, b"the greatest time asked decides: ", n, i, x)
}

// How a line ends that says why a lock is refused.
fn put_refused_end(out: &mut [u8], at: usize) -> usize
    ensures { spot result out.new ≡ lay (spot at out.old) refused_end }
{
    put(out, at, b": refused 7\n")
}

// Both kinds were asked for.
fn put_both(out: &mut [u8], at: usize, h: u64, t: u64) -> usize
    ensures { spot result out.new ≡ lay (spot at out.old) (both_line h t) }
{
    let to = put_input_name(out, at, h);
    let to = put(out, to, b" asks a height and ");
    let to = put_input_name(out, to, t);
    let to = put(out, to, b" asks a time");
    put_refused_end(out, to)
}

// The number that input `i` asks for would be read as the other kind.
fn put_misread(out: &mut [u8], at: usize, asks: &[u8], reads: &[u8], n: u32, i: u64) -> usize
    ensures { spot result out.new ≡ lay (spot at out.old) (misread asks.now reads.now n i) }
{
    let to = put_input_name(out, at, i);
    let to = put(out, to, asks);
    let to = put_decimal(out, to, n as u64);
    let to = put(out, to, reads);
    put_refused_end(out, to)
}

// The greatest height is none.
fn put_too_great(out: &mut [u8], at: usize, n: u32, i: u64) -> usize
    ensures { spot result out.new ≡ lay (spot at out.old) (too_great_line n i) }
{
    put_misread(
        out,
        at,
        b" asks height ",
        b", which is not below 500000000 and would be read as a time",
        n,
        i,
    )
}

// The greatest time is none: a fallen clock.
fn put_too_small(out: &mut [u8], at: usize, n: u32, i: u64) -> usize
    ensures { spot result out.new ≡ lay (spot at out.old) (too_small_line n i) }
{
    put_misread(
        out,
        at,
        b" asks time ",
        b", which is below 500000000 and would be read as a block height",
        n,
        i,
    )
}

// A field has a wrong length.
fn put_malformed(out: &mut [u8], at: usize, i: u64) -> usize
    ensures { spot result out.new ≡ lay (spot at out.old) (malformed_line i) }
{
    let to = put_input_name(out, at, i);
    let to = put(out, to, b" asks a height or a time of a wrong length");
    put_refused_end(out, to)
}

// The verdict on the lock, and with it the transaction's answer.
pub fn put_verdict(
    out: &mut [u8],
    at: usize,
    lock: Result<Lock, PsbtError>,
    x: Result<Written, PsbtError>,
) -> usize
    ensures { spot result out.new ≡ lay (spot at out.old) (verdict lock x) }
{
    match lock {
        Err(e) => put_refused(out, at, e),
        Ok(Lock::Height { number, input }) => put_height_decided(out, at, number, input, x),
        Ok(Lock::Time { number, input }) => put_time_decided(out, at, number, input, x),
        Ok(Lock::Fallback { number }) => put_fallback_decided(out, at, number, x),
        Ok(
            Lock::BothKinds {
                height_input,
                time_input,
            },
        ) => put_both(out, at, height_input, time_input),
        Ok(Lock::HeightTooGreat { number, input }) => put_too_great(out, at, number, input),
        Ok(Lock::TimeTooSmall { number, input }) => put_too_small(out, at, number, input),
        Ok(Lock::Malformed { input }) => put_malformed(out, at, input),
    }
}
