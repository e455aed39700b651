// How many bytes an unsigned transaction takes, and whether each output has what it needs: an amount, and a script in the file or in the script table.
#![tactic(auto)]

ghost use Rattle.std.specs.Prelude.{◌≡◌, ◌+◌, ◌^◌, ◌<◌};
ghost use Rattle.format.specs.Transaction.{set_so_far};
ghost use Rattle.scripts.specs.Tables.{entry_at};
ghost use Rattle.all_maps_fit.specs.Alls.{Usable, AllFit};
ghost use Rattle.tx_size.specs.Lengths.{scripted, out_length, capped, out_measure, outs_measure, fixed_length, tx_measure};
ghost use Rattle.tx_size.specs.Places.{out_in, outs_now, there_at, is_set, script_in, script_length, has_script};

use all_maps_fit::SizedAt;
use format::{MapEntry, PSBT_OUT_AMOUNT, PSBT_OUT_SCRIPT, Psbt, PsbtError, State};

// Where an output's script stands: in the file, or in its entry of the script table.
#[derive(Clone, Copy)]
pub enum ScriptAt {
    Missing,
    InFile { start: usize, len: usize },
    InTable,
}

// How many bytes an input takes.
pub const INPUT_LEN: u64 = 41;

// A field is there.
pub fn is_there(x: SizedAt) -> bool
    ensures { result ≡ there_at x }
{
    matches!(x, SizedAt::At { .. })
}

// An output's entry of the script table, as far as one was set.
pub fn set_entry(scripts: &[u8], state: State, i: u64) -> &[u8]
    ensures { result.now ≡ entry_at (set_so_far state scripts.now) i }
{
    if state.set {
        scripts::entry_at(scripts, i)
    } else {
        &scripts[..0]
    }
}

// A script is set in an entry.
fn is_set(entry: &[u8]) -> bool
    ensures { result ≡ is_set entry.now }
{
    !entry.is_empty() && entry[0] == 1
}

// Where an output's script stands: 04, else the one set.
pub fn script_at(file: &[u8], pairs: &[u32], m: MapEntry, entry: &[u8]) -> ScriptAt
    requires { Usable file.now pairs.now m }
    ensures { script_in file.now entry.now result
        ≡ (scripted (out_in file.now pairs.now m) entry.now).script }
{
    match all_maps_fit::found_field(file, pairs, m, PSBT_OUT_SCRIPT) {
        Some(p) => ScriptAt::InFile {
            start: p.start,
            len: p.len,
        },
        None if is_set(entry) => ScriptAt::InTable,
        None => ScriptAt::Missing,
    }
}

// How many bytes it has, 0 if it is missing.
pub fn script_len(file: &[u8], entry: &[u8], at: ScriptAt) -> usize
    ensures { result ≡ script_length file.now entry.now at }
{
    match at {
        ScriptAt::Missing => 0,
        ScriptAt::InFile { start, len } => fitness::bytes_at(file, start, len).len(),
        ScriptAt::InTable => entry.len().saturating_sub(1),
    }
}

// There is a script.
fn has_script(at: ScriptAt) -> bool
    ensures { result ≡ has_script at }
{
    !matches!(at, ScriptAt::Missing)
}

// How many bytes an output with a script of `n` bytes takes.
fn out_len(n: usize) -> u64
    requires { n < 2 ^ 63 }
    ensures { result ≡ out_length n }
{
    let script = n as u64;
    8 + writer::size_len(script) as u64 + script
}

// An output's measure: amount missing, then script missing.
fn output_len(file: &[u8], pairs: &[u32], m: MapEntry, entry: &[u8]) -> Result<u64, PsbtError>
    requires { Usable file.now pairs.now m }
    ensures { result ≡ out_measure (scripted (out_in file.now pairs.now m) entry.now) }
{
    let amount = all_maps_fit::sized_field(file, pairs, m, PSBT_OUT_AMOUNT, 8);
    if !is_there(amount) {
        return Err(PsbtError::BadValue);
    }
    let at = script_at(file, pairs, m, entry);
    if !has_script(at) {
        return Err(PsbtError::MissingOutputScript);
    }
    Ok(out_len(script_len(file, entry, at)))
}

// So many bytes, and then all outputs.
fn outputs_len(
    file: &[u8],
    pairs: &[u32],
    maps: &[u32],
    psbt: Psbt,
    state: State,
    scripts: &[u8],
    first: u64,
) -> Result<u64, PsbtError>
    requires { AllFit file.now pairs.now maps.now psbt }
    ensures { result ≡ outs_measure (outs_now file.now pairs.now maps.now psbt state scripts.now) first }
{
    let mut total = first;
    for i in 0..psbt.outputs {
        let m = all_maps_fit::output_entry(maps, psbt, i);
        let entry = set_entry(scripts, state, i);
        total = total.saturating_add(output_len(file, pairs, m, entry)?);
    }
    Ok(total)
}

// All but the outputs.
fn fixed_len(psbt: Psbt) -> u64
    ensures { result ≡ capped (fixed_length psbt.inputs psbt.outputs) }
{
    let sizes = 8 + writer::size_len(psbt.inputs) as u64 + writer::size_len(psbt.outputs) as u64;
    psbt.inputs.saturating_mul(INPUT_LEN).saturating_add(sizes)
}

// The whole transaction's measure, where each input has what it needs.
pub fn tx_len(
    file: &[u8],
    pairs: &[u32],
    maps: &[u32],
    psbt: Psbt,
    state: State,
    scripts: &[u8],
) -> Result<u64, PsbtError>
    requires { AllFit file.now pairs.now maps.now psbt }
    ensures { result ≡ tx_measure psbt (outs_now file.now pairs.now maps.now psbt state scripts.now) }
{
    outputs_len(file, pairs, maps, psbt, state, scripts, fixed_len(psbt))
}
