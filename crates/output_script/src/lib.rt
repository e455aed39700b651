// An output's script: 04 in the file, else the one that the signer set.
#![tactic(auto)]

ghost use Rattle.std.specs.Prelude.{◌≡◌, ◌+◌, ◌≤◌};
ghost use Rattle.format.specs.Tables.{held_output, holds};
ghost use Rattle.format.specs.Transaction.{output_script_def, script_part};
ghost use Rattle.format.specs.Told.{told_script};
ghost use Rattle.entries.specs.Words.{pair_count};
ghost use Rattle.fitness.specs.Fits.{entries_of};
ghost use Rattle.output_script.specs.Scripts.{in_file, in_table};

use format::{MapEntry, PSBT_OUT_SCRIPT, Part, Psbt, PsbtError, ScriptPlace, State};

// A script 04, once its entry of the script table is fit.
fn in_file(state: State, scripts: &[u8], i: u64, p: Part) -> Result<Option<ScriptPlace>, PsbtError>
    ensures { result ≡ in_file state scripts.now i p.start p.len }
{
    if state.set && !scripts::entry_fits(true, scripts::entry_at(scripts, i)) {
        return Err(PsbtError::BadIndex);
    }
    Ok(Some(ScriptPlace::InFile {
        start: p.start,
        len: p.len,
    }))
}

// The script set, where there is no 04.
fn in_table(state: State, scripts: &[u8], i: u64) -> Result<Option<ScriptPlace>, PsbtError>
    ensures { result ≡ in_table state scripts.now i }
{
    if !state.set {
        return Ok(None);
    }
    if !scripts::entry_fits(false, scripts::entry_at(scripts, i)) {
        return Err(PsbtError::BadIndex);
    }
    Ok(Some(ScriptPlace::InTable {
        start: i as usize * scripts::ENTRY + 1,
        len: scripts::SCRIPT_LEN,
    }))
}

// The script of an output whose map is fit.
fn script_in(
    file: &[u8],
    pairs: &[u32],
    m: MapEntry,
    state: State,
    scripts: &[u8],
    i: u64,
) -> Result<Option<ScriptPlace>, PsbtError>
    requires { m.first + m.count ≤ pair_count pairs.now }
    ensures { result ≡ output_script_def file.now state scripts.now i (holds (entries_of pairs.now m)) }
{
    match all_maps_fit::found_field(file, pairs, m, PSBT_OUT_SCRIPT) {
        None => in_table(state, scripts, i),
        Some(p) => in_file(state, scripts, i, p),
    }
}

// Where the script of output number `i` stands.
pub fn output_script(
    file: &[u8],
    pairs: &[u32],
    maps: &[u32],
    psbt: Psbt,
    state: State,
    scripts: &[u8],
    i: u64,
) -> Result<Option<ScriptPlace>, PsbtError>
    ensures { told_script result ≡ told_script (output_script_def file.now state scripts.now i
        (held_output file.now pairs.now maps.now psbt i)) }
{
    let m = fitness::fit_output(file, pairs, maps, psbt, i)?;
    script_in(file, pairs, m, state, scripts, i)
}

// The part of the file or of the script table that an answer names: empty for absence and refusal.
fn script_part<'a>(
    file: &'a [u8],
    scripts: &'a [u8],
    at: Result<Option<ScriptPlace>, PsbtError>,
) -> &'a [u8]
    ensures { result.now ≡ script_part file.now scripts.now at }
{
    match at {
        Err(_) | Ok(None) => &file[..0],
        Ok(Some(ScriptPlace::InFile { start, len })) => fitness::bytes_at(file, start, len),
        Ok(Some(ScriptPlace::InTable { start, len })) => fitness::bytes_at(scripts, start, len),
    }
}

// The script that `output_script` finds, as the part of the file or of the script table itself.
pub fn output_script_part<'a>(
    file: &'a [u8],
    pairs: &[u32],
    maps: &[u32],
    psbt: Psbt,
    state: State,
    scripts: &'a [u8],
    i: u64,
) -> &'a [u8]
    ensures { result.now ≡ script_part file.now scripts.now (output_script_def file.now state scripts.now i
        (held_output file.now pairs.now maps.now psbt i)) }
{
    let at = output_script(file, pairs, maps, psbt, state, scripts, i);
    script_part(file, scripts, at)
}
