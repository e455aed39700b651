// The unsigned transaction: measured and judged first, then written, so that a refusal writes nothing.
#![tactic(auto)]

ghost use Rattle.std.specs.Prelude.{◌≡◌, ◌&&◌};
ghost use Rattle.format.specs.Transaction.{set_so_far, scripts_fit, table_fits, tx_with, tx_out, written, unsigned_tx_def};
ghost use Rattle.format.specs.Told.{told_left, told_tx, told_tx_out};
ghost use Rattle.format.specs.Tables.{view};
ghost use Rattle.all_maps_fit.specs.Alls.{AllFit, ins_of, outs_of};
ghost use Rattle.unsigned_tx.specs.Surveys.{allowed_at, ok_at, survey_of, AllOk};

use all_maps_fit::{InputAt, SizedAt};
use format::{PSBT_OUT_SCRIPT, Psbt, PsbtError, State, Written};
use lock::Asks;

// What all inputs ask of the lock, and whether each has what a transaction needs.
#[derive(Clone, Copy)]
pub struct Survey {
    pub asks: Asks,
    pub ok: bool,
}

// A field may be absent, but has its length where it is there.
fn is_allowed(x: SizedAt) -> bool
    ensures { result ≡ allowed_at x }
{
    !matches!(x, SizedAt::Misfit)
}

// An input has what a transaction needs.
fn input_ok(at: InputAt) -> bool
    ensures { result ≡ ok_at at }
{
    tx_size::is_there(at.txid) && tx_size::is_there(at.index) && is_allowed(at.sequence)
}

// The inputs so far have, and one more.
fn all_ok(ok: bool, at: InputAt) -> bool
    ensures { result ≡ (ok && ok_at at) }
{
    ok && input_ok(at)
}

// What all inputs ask of the lock, and whether each has what a transaction needs, in one walk.
fn survey_inputs(file: &[u8], pairs: &[u32], maps: &[u32], psbt: Psbt) -> Survey
    requires { AllFit file.now pairs.now maps.now psbt }
    ensures { result ≡ survey_of (ins_of file.now pairs.now maps.now psbt) }
{
    let mut asks = lock::no_asks();
    let mut ok = true;
    for i in 0..psbt.inputs {
        let m = all_maps_fit::input_entry(maps, i);
        let at = all_maps_fit::input_at(file, pairs, m);
        asks = lock::see_at(file, asks, i, at);
        ok = all_ok(ok, at);
    }
    Survey { asks, ok }
}

// Each output's entry of the script table is one that the setter writes for it.
fn scripts_fit(file: &[u8], pairs: &[u32], maps: &[u32], psbt: Psbt, scripts: &[u8]) -> bool
    requires { AllFit file.now pairs.now maps.now psbt }
    ensures { result ≡ scripts_fit (outs_of file.now pairs.now maps.now psbt) scripts.now }
{
    for i in 0..psbt.outputs {
        let m = all_maps_fit::output_entry(maps, psbt, i);
        let found = all_maps_fit::found_field(file, pairs, m, PSBT_OUT_SCRIPT);
        if !scripts::entry_fits(found.is_some(), scripts::entry_at(scripts, i)) {
            return false;
        }
    }
    true
}

// Once scripts are set, the script table is one that the setter leaves.
fn table_fits(
    file: &[u8],
    pairs: &[u32],
    maps: &[u32],
    psbt: Psbt,
    state: State,
    scripts: &[u8],
) -> bool
    requires { AllFit file.now pairs.now maps.now psbt }
    ensures { result ≡ table_fits state (outs_of file.now pairs.now maps.now psbt) scripts.now }
{
    !state.set || scripts_fit(file, pairs, maps, psbt, scripts)
}

// The transaction with this lock time, where each input has what it needs: the first refusal of its outputs, 25, or its bytes.
fn locked_tx(
    file: &[u8],
    pairs: &[u32],
    maps: &[u32],
    psbt: Psbt,
    state: State,
    scripts: &[u8],
    lock: u32,
    out: &mut [u8],
) -> Result<Written, PsbtError>
    requires { AllOk file.now pairs.now maps.now psbt }
    ensures { tx_out result out.new ≡ written state out.old (tx_with psbt
        (ins_of file.now pairs.now maps.now psbt)
        (outs_of file.now pairs.now maps.now psbt) (set_so_far state scripts.now) lock) }
{
    let len = tx_size::tx_len(file, pairs, maps, psbt, state, scripts)?;
    if len > out.len() as u64 {
        return Err(PsbtError::NoRoom);
    }
    tx_bytes::put_tx(file, pairs, maps, psbt, state, scripts, lock, out);
    Ok(Written {
        len: len as usize,
        state: State {
            written: true,
            ..state
        },
    })
}

// The transaction where all maps are fit: the script table, then the lock.
fn fit_tx(
    file: &[u8],
    pairs: &[u32],
    maps: &[u32],
    psbt: Psbt,
    state: State,
    scripts: &[u8],
    out: &mut [u8],
) -> Result<Written, PsbtError>
    requires { AllFit file.now pairs.now maps.now psbt }
    ensures { tx_out result out.new ≡ unsigned_tx_def (view file.now pairs.now maps.now psbt) psbt state
        scripts.now out.old }
{
    if !table_fits(file, pairs, maps, psbt, state, scripts) {
        return Err(PsbtError::BadIndex);
    }
    let seen = survey_inputs(file, pairs, maps, psbt);
    let lock = lock::lock_of(Ok(lock::decide(psbt.fallback_locktime, seen.asks)))?;
    if !seen.ok {
        return Err(PsbtError::BadValue);
    }
    locked_tx(file, pairs, maps, psbt, state, scripts, lock, out)
}

// The unsigned transaction of the tables' maps and of the scripts set, written from the buffer's front on.
// It answers how many bytes it has and the new state; a refusal writes nothing.
pub fn unsigned_tx(
    file: &[u8],
    pairs: &[u32],
    maps: &[u32],
    psbt: Psbt,
    state: State,
    scripts: &[u8],
    out: &mut [u8],
) -> Result<Written, PsbtError>
    ensures { told_left (told_tx result) out.new ≡ told_tx_out
        (unsigned_tx_def (view file.now pairs.now maps.now psbt) psbt state scripts.now out.old) }
{
    all_maps_fit::all_fit(file, pairs, maps, psbt)?;
    fit_tx(file, pairs, maps, psbt, state, scripts, out)
}
