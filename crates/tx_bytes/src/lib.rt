// Writes the bytes of an unsigned transaction into a lent buffer that has the room for them.
#![tactic(auto)]

ghost use Rattle.std.specs.Prelude.{◌≡◌, ◌+◌, ◌≤◌, length};
ghost use Rattle.format.specs.Numbers.{bytes_of, unsigned};
ghost use Rattle.format.specs.Transaction.{or_final};
ghost use Rattle.writer.specs.Writes.{wrote};
ghost use Rattle.all_maps_fit.specs.Alls.{ins_of};
ghost use Rattle.all_maps_fit.specs.Places.{sized_in};
ghost use Rattle.tx_size.specs.Lengths.{scripted, script_bytes};
ghost use Rattle.tx_size.specs.Places.{out_in, outs_now, script_in, script_length};
ghost use Rattle.tx_bytes.specs.Bytes.{bytes_in};
ghost use Rattle.tx_bytes.specs.Puts.{put, put_input, put_inputs, put_one, put_outputs, put_rest_def, put_front, put_tx};
ghost use Rattle.tx_bytes.specs.Rooms.{in_in, InputRoom, InputsRoom, OutputRoom, OutputsRoom, FrontRoom, RestRoom, TxRoom};

use all_maps_fit::SizedAt;
use format::{MapEntry, PSBT_OUT_AMOUNT, Psbt, State};
use tx_size::{INPUT_LEN, ScriptAt};

// The sequence of an input that has none.
const FINAL: u64 = 0xffff_ffff;

// The `width` bytes of a field that is there.
fn put_at(file: &[u8], x: SizedAt, width: usize, out: &mut [u8], at: usize)
    requires { at + width ≤ length out.old }
    ensures { out.new ≡ wrote out.old at (bytes_in (sized_in width file.now x)) }
{
    if let SizedAt::At { start } = x {
        writer::put_bytes(out, at, fitness::bytes_at(file, start, width));
    }
}

// A sequence; an absent one is ffffffff.
fn put_sequence(file: &[u8], x: SizedAt, out: &mut [u8], at: usize)
    requires { at + 4 ≤ length out.old }
    ensures { out.new ≡ wrote out.old at (bytes_in (or_final (sized_in 4 file.now x))) }
{
    match x {
        SizedAt::Missing => writer::put_le(out, at, FINAL, 4),
        SizedAt::Misfit => {}
        SizedAt::At { .. } => put_at(file, x, 4, out, at),
    }
}

// An input: txid, index, an empty script, sequence.
fn put_input(file: &[u8], pairs: &[u32], m: MapEntry, out: &mut [u8], at: usize)
    requires { InputRoom file.now pairs.now m at (length out.old) }
    ensures { out.new ≡ put_input out.old at (in_in file.now pairs.now m) }
{
    let places = all_maps_fit::input_at(file, pairs, m);
    put_at(file, places.txid, 32, out, at);
    put_at(file, places.index, 4, out, at + 32);
    writer::put_le(out, at + 36, 0, 1);
    put_sequence(file, places.sequence, out, at + 37);
}

// All inputs, and the place behind them.
fn put_inputs(
    file: &[u8],
    pairs: &[u32],
    maps: &[u32],
    psbt: Psbt,
    out: &mut [u8],
    at: usize,
) -> usize
    requires { InputsRoom file.now pairs.now maps.now psbt at (length out.old) }
    ensures { put result out.new ≡ put_inputs out.old at (ins_of file.now pairs.now maps.now psbt) }
{
    let mut to = at;
    for i in 0..psbt.inputs {
        let m = all_maps_fit::input_entry(maps, i);
        put_input(file, pairs, m, out, to);
        to += INPUT_LEN as usize;
    }
    to
}

// The script itself.
fn put_script(file: &[u8], entry: &[u8], at: ScriptAt, out: &mut [u8], to: usize)
    requires { to + script_length file.now entry.now at ≤ length out.old }
    ensures { out.new ≡ wrote out.old to (script_bytes (script_in file.now entry.now at)) }
{
    match at {
        ScriptAt::Missing => {}
        ScriptAt::InFile { start, len } => {
            writer::put_bytes(out, to, fitness::bytes_at(file, start, len))
        }
        ScriptAt::InTable => {
            if let [_, script @ ..] = entry {
                writer::put_bytes(out, to, script);
            }
        }
    }
}

// An output: amount, script length, script; and the place behind it.
fn put_output(
    file: &[u8],
    pairs: &[u32],
    m: MapEntry,
    entry: &[u8],
    out: &mut [u8],
    at: usize,
) -> usize
    requires { OutputRoom file.now pairs.now m entry.now at (length out.old) }
    ensures { put result out.new ≡ put_one out.old at
        (scripted (out_in file.now pairs.now m) entry.now) }
{
    let amount = all_maps_fit::sized_field(file, pairs, m, PSBT_OUT_AMOUNT, 8);
    let script = tx_size::script_at(file, pairs, m, entry);
    let n = tx_size::script_len(file, entry, script);
    let to_size = at + 8;
    let to_script = to_size + writer::size_len(n as u64);
    let end = to_script + n;
    put_at(file, amount, 8, out, at);
    writer::put_size(out, to_size, n as u64);
    put_script(file, entry, script, out, to_script);
    end
}

// All outputs, and the place behind them.
fn put_outputs(
    file: &[u8],
    pairs: &[u32],
    maps: &[u32],
    psbt: Psbt,
    state: State,
    scripts: &[u8],
    out: &mut [u8],
    at: usize,
) -> usize
    requires { OutputsRoom file.now pairs.now maps.now psbt state scripts.now at (length out.old) }
    ensures { put result out.new ≡ put_outputs out.old at
        (outs_now file.now pairs.now maps.now psbt state scripts.now) }
{
    let mut to = at;
    for i in 0..psbt.outputs {
        let m = all_maps_fit::output_entry(maps, psbt, i);
        let entry = tx_size::set_entry(scripts, state, i);
        to = put_output(file, pairs, m, entry, out, to);
    }
    to
}

// The version, from the front on.
fn put_version(psbt: Psbt, out: &mut [u8])
    requires { 4 ≤ length out.old }
    ensures { out.new ≡ wrote out.old 0 (bytes_of 4 (unsigned psbt.tx_version)) }
{
    writer::put_le(out, 0, writer::bits_of(psbt.tx_version), 4);
}

// Version, input count and inputs, and the place behind them.
fn put_front(file: &[u8], pairs: &[u32], maps: &[u32], psbt: Psbt, out: &mut [u8]) -> usize
    requires { FrontRoom file.now pairs.now maps.now psbt (length out.old) }
    ensures { put result out.new ≡ put_front out.old psbt (ins_of file.now pairs.now maps.now psbt) }
{
    let to = 4 + writer::size_len(psbt.inputs);
    put_version(psbt, out);
    writer::put_size(out, 4, psbt.inputs);
    put_inputs(file, pairs, maps, psbt, out, to)
}

// Output count, outputs and lock time, from `at` on.
fn put_rest(
    file: &[u8],
    pairs: &[u32],
    maps: &[u32],
    psbt: Psbt,
    state: State,
    scripts: &[u8],
    lock: u32,
    out: &mut [u8],
    at: usize,
)
    requires { RestRoom file.now pairs.now maps.now psbt state scripts.now at (length out.old) }
    ensures { out.new ≡ put_rest_def
        (outs_now file.now pairs.now maps.now psbt state scripts.now) lock (put at out.old) }
{
    let to = at + writer::size_len(psbt.outputs);
    writer::put_size(out, at, psbt.outputs);
    let end = put_outputs(file, pairs, maps, psbt, state, scripts, out, to);
    writer::put_le(out, end, lock as u64, 4);
}

// The transaction, from the front on.
pub fn put_tx(
    file: &[u8],
    pairs: &[u32],
    maps: &[u32],
    psbt: Psbt,
    state: State,
    scripts: &[u8],
    lock: u32,
    out: &mut [u8],
)
    requires { TxRoom file.now pairs.now maps.now psbt state scripts.now (length out.old) }
    ensures { out.new ≡ put_tx out.old psbt (ins_of file.now pairs.now maps.now psbt)
        (outs_now file.now pairs.now maps.now psbt state scripts.now) lock }
{
    let at = put_front(file, pairs, maps, psbt, out);
    put_rest(file, pairs, maps, psbt, state, scripts, lock, out, at);
}
