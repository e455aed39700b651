// The text that `why` prints of a file: what its inputs ask of the lock, what decided it, whether a transaction is given, and whether the network
// heeds the lock; of a refused file what refused it, and where.
#![tactic(auto)]

ghost use Rattle.std.specs.Prelude.{◌≡◌, ◌+◌, ◌≤◌, length, take, ℕ, OnOk, OnErr, IfSome};
ghost use Rattle.std.specs.Io.KnownBytes.{Appends};
ghost use Rattle.rooms.specs.Limits.{longest};
ghost use Rattle.text.specs.Spots.{spot, lay};
ghost use Rattle.why_text.specs.Why.{height_asked, time_asked, inputs_text, accepted_text, refused_text, why_in, why};

use format::{Parsed, Psbt, PsbtError, State};
use heed_lines::{heed_of, put_heed};
use lock_lines::{put_head, put_input, put_verdict};
use reasons::put_refused;
use rooms::{LONGEST, map_room, pair_room, tx_room, write_put};
use std::io::{self, Read, Write};
use stop_lines::put_stop;
use typed::input::{required_height_locktime, required_time_locktime};

// Room for the longest text, in bytes.
const LONGEST_TEXT: usize = 30_720;

// What all inputs ask for, a line each.
fn put_inputs(
    out: &mut [u8],
    at: usize,
    file: &[u8],
    pairs: &[u32],
    maps: &[u32],
    psbt: Psbt,
) -> usize
    ensures { spot result out.new
        ≡ lay (spot at out.old) (inputs_text (height_asked file.now pairs.now maps.now psbt)
        (time_asked file.now pairs.now maps.now psbt) 0 psbt.inputs) }
{
    let mut to = at;
    for i in 0..psbt.inputs {
        let h = required_height_locktime(file, pairs, maps, psbt, i);
        let t = required_time_locktime(file, pairs, maps, psbt, i);
        to = put_input(out, to, i, h, t);
    }
    to
}

// The text of an accepted file, by the tables that its parse left.
fn put_accepted(
    out: &mut [u8],
    at: usize,
    file: &[u8],
    pairs: &[u32],
    maps: &[u32],
    psbt: Psbt,
    tx: &mut [u8],
) -> usize
    ensures { spot result out.new
        ≡ lay (spot at out.old) (accepted_text file.now pairs.now maps.now psbt tx.old) }
{
    let to = put_head(out, at, psbt.inputs, psbt.fallback_locktime);
    let to = put_inputs(out, to, file, pairs, maps, psbt);
    let fresh = State {
        set: false,
        written: false,
    };
    let x = unsigned_tx::unsigned_tx(file, pairs, maps, psbt, fresh, &file[..0], tx);
    let lock = lock::lock_decided(file, pairs, maps, psbt);
    let to = put_verdict(out, to, lock, x);
    let heed = heed_of(file, pairs, maps, psbt);
    put_heed(out, to, lock, heed)
}

// The text of a refused file: what the refusal means, and where the parse stopped.
fn put_refusal(
    out: &mut [u8],
    at: usize,
    file: &[u8],
    pairs: &[u32],
    maps: &[u32],
    e: PsbtError,
    p: usize,
    m: usize,
) -> usize
    ensures { spot result out.new ≡ lay (spot at out.old)
        (refused_text file.now pairs.now maps.now e p m) }
{
    let to = put_refused(out, at, e);
    put_stop(out, to, file, pairs, maps, e, p, m)
}

// The text of a file, parsed into these tables and with this room for the transaction.
fn put_parsed(
    out: &mut [u8],
    at: usize,
    file: &[u8],
    pairs: &mut [u32],
    maps: &mut [u32],
    tx: &mut [u8],
) -> usize
    ensures { spot result out.new
        ≡ lay (spot at out.old) (why_in pairs.old maps.old tx.old file.now) }
{
    match psbt::parse(file, pairs, maps) {
        Parsed::Accepted { psbt, .. } => put_accepted(out, at, file, pairs, maps, psbt, tx),
        Parsed::Refused {
            error,
            pairs: p,
            maps: m,
        } => put_refusal(out, at, file, pairs, maps, error, p, m),
    }
}

// Puts the text of a file at `at`, as far as there is room, and answers the place behind it.
// Kept: `dump_text::put_dump` has the same rooms, and says why it stands apart.
pub fn put_why(out: &mut [u8], at: usize, file: &[u8]) -> usize
    ensures { spot result out.new ≡ lay (spot at out.old) (why file.now) }
{
    if LONGEST < file.len() {
        return put_refused(out, at, PsbtError::TooLong);
    }
    let mut pairs = pair_room();
    let mut maps = map_room();
    let mut tx = tx_room();
    put_parsed(out, at, file, &mut pairs, &mut maps, &mut tx)
}

// Room for every text: none is longer (`why_fits`).
fn text_room() -> [u8; LONGEST_TEXT]
    ensures { 30720 ≡ length result }
{
    [0; LONGEST_TEXT]
}

// Puts the text of a file at the front of a room for every text, where it stands whole, and answers its end.
fn put_whole(out: &mut [u8], file: &[u8]) -> usize
    requires { 30720 ≤ length out.old }
    ensures upper_bound { result ≤ length out.new }
    ensures out_after { take result out.new ≡ why file.now }
{
    put_why(out, 0, file)
}

// Reads a file, until it ends or is too long, and writes its text. The error is that of the read or the write that failed: then
// a front of the text may have been written, behind a failed read nothing.
pub fn why_input<R: Read, W: Write>(from: &mut R, to: &mut W) -> io::Result<()>
    ensures ok { OnOk result (IfSome (R.remaining from.old)
        (λ f. Appends (W.contents to.old) (W.contents to.new) (why (take (longest + 1) f)))) }
    ensures err { OnErr result (IfSome (R.remaining from.old)
        (λ f. (n : ℕ) × Appends (W.contents to.old) (W.contents to.new) (take n (why (take (longest + 1) f))))) }
{
    let mut out = text_room();
    write_put(from, to, &mut out, put_whole)
}
