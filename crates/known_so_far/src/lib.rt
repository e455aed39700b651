// What is known of a file so far, pair by pair and map by map, and what the rules say of it: no table is needed for the verdict.
#![tactic(auto)]

ghost use Rattle.std.specs.Prelude.{◌≡◌, []};
ghost use Rattle.format.specs.Content.{size_value, output_by};
ghost use Rattle.format.specs.Rules.{and_then};
ghost use Rattle.known_so_far.specs.SoFar.{noted, noted_count, noted_there, note_global, note_output, note, globals_rule, all_there, version_rule};
ghost use Rattle.known_so_far.specs.SoFar.{psbt_from, flags, close_global, close_output, close, finish, start, after, there, at_first};

use format::{
    CompactSize, MapKind, PSBT_GLOBAL_FALLBACK_LOCKTIME, PSBT_GLOBAL_INPUT_COUNT,
    PSBT_GLOBAL_OUTPUT_COUNT, PSBT_GLOBAL_TX_MODIFIABLE, PSBT_GLOBAL_TX_VERSION,
    PSBT_GLOBAL_VERSION, PSBT_OUT_SCRIPT, PSBT_OUT_SP_V0_INFO, PSBT_OUT_SP_V0_LABEL, Psbt,
    PsbtError,
};
use keys::is_bare;
use wire::{signed, u32_from_le_bytes, u64_from_compact_size};

// What is known of the global map: its fields without key data. An absent count is 0 and has its flag unset; the flags
// stand behind the wider fields.
// Kept: counts with flags apart and no Option, which takes eight bytes more for each. What is known is copied at each pair.
#[derive(Clone, Copy)]
pub struct Globals {
    pub tx_version: Option<u32>,
    pub fallback_locktime: Option<u32>,
    pub n_inputs: u64,
    pub n_outputs: u64,
    pub tx_modifiable: Option<u32>,
    pub psbt_version: Option<u32>,
    pub has_inputs: bool,
    pub has_outputs: bool,
}

// Which of script 04, code 09 and label 0a the output that is read has.
#[derive(Clone, Copy)]
pub struct Seen {
    pub script: bool,
    pub code: bool,
    pub label: bool,
}

// An output of which nothing is read yet.
const UNSEEN: Seen = Seen {
    script: false,
    code: false,
    label: false,
};

// What is known of a file so far: the global fields, how many inputs and outputs are still to come, what the output that
// is read has, what the rules say of the outputs so far, and the kind of the map that is read (last, where it leaves
// no gap before the wider fields: copying one costs time at each pair).
#[derive(Clone, Copy)]
pub struct Known {
    pub globals: Globals,
    pub inputs: u64,
    pub outputs: u64,
    pub seen: Seen,
    pub ruled: Result<(), PsbtError>,
    pub kind: MapKind,
}

// What follows a map: the end of the file, or another map with what is known before it.
#[derive(Clone, Copy)]
pub enum Next {
    Done(Psbt),
    Map(Known),
}

// The value of a compact size, 0 where it could not be read.
fn size_value(x: Result<CompactSize, PsbtError>) -> u64
    ensures { result ≡ size_value x }
{
    match x {
        Err(_) => 0,
        Ok(size) => size.value,
    }
}

// A field of at most four bytes after a pair.
// Kept: this one, `noted_count` and `noted_there` are lines that differ in a type. One over all three would take what reads the
// value as a closure, and its clauses would be longer than they.
fn noted(key_type: u8, key: &[u8], value: &[u8], old: Option<u32>) -> Option<u32>
    ensures { result ≡ noted key_type key.now value.now old }
{
    if is_bare(key, key_type) {
        Some(u32_from_le_bytes(value))
    } else {
        old
    }
}

// A count field after a pair.
fn noted_count(key_type: u8, key: &[u8], value: &[u8], old: u64) -> u64
    ensures { result ≡ noted_count key_type key.now value.now old }
{
    if is_bare(key, key_type) {
        size_value(u64_from_compact_size(value))
    } else {
        old
    }
}

// Whether a field is there, after a pair.
fn noted_there(key_type: u8, key: &[u8], old: bool) -> bool
    ensures { result ≡ noted_there key_type key.now [] old }
{
    is_bare(key, key_type) || old
}

// The global fields after a pair of the global map.
fn note_global(g: Globals, key: &[u8], value: &[u8]) -> Globals
    ensures { result ≡ note_global key.now value.now g }
{
    Globals {
        tx_version: noted(PSBT_GLOBAL_TX_VERSION, key, value, g.tx_version),
        fallback_locktime: noted(
            PSBT_GLOBAL_FALLBACK_LOCKTIME,
            key,
            value,
            g.fallback_locktime,
        ),
        n_inputs: noted_count(PSBT_GLOBAL_INPUT_COUNT, key, value, g.n_inputs),
        n_outputs: noted_count(PSBT_GLOBAL_OUTPUT_COUNT, key, value, g.n_outputs),
        tx_modifiable: noted(PSBT_GLOBAL_TX_MODIFIABLE, key, value, g.tx_modifiable),
        psbt_version: noted(PSBT_GLOBAL_VERSION, key, value, g.psbt_version),
        has_inputs: noted_there(PSBT_GLOBAL_INPUT_COUNT, key, g.has_inputs),
        has_outputs: noted_there(PSBT_GLOBAL_OUTPUT_COUNT, key, g.has_outputs),
    }
}

// What an output has, after a pair of it.
fn note_output(seen: Seen, key: &[u8]) -> Seen
    ensures { result ≡ note_output key.now [] seen }
{
    Seen {
        script: noted_there(PSBT_OUT_SCRIPT, key, seen.script),
        code: noted_there(PSBT_OUT_SP_V0_INFO, key, seen.code),
        label: noted_there(PSBT_OUT_SP_V0_LABEL, key, seen.label),
    }
}

// What is known after a pair.
pub fn note_pair(known: Known, key: &[u8], value: &[u8]) -> Known
    ensures { result ≡ note key.now value.now known }
{
    if key.len() != 1 {
        return known;
    }
    match known.kind {
        MapKind::Global => Known {
            globals: note_global(known.globals, key, value),
            ..known
        },
        MapKind::Input | MapKind::Other => known,
        MapKind::Output => Known {
            seen: note_output(known.seen, key),
            ..known
        },
    }
}

// All that has to be in the global map is there.
fn has_counts(g: Globals) -> bool
    ensures { result ≡ all_there g }
{
    g.tx_version.is_some() && (g.has_inputs && (g.has_outputs && g.psbt_version.is_some()))
}

// The version is 2.
fn check_version(psbt_version: Option<u32>) -> Result<(), PsbtError>
    ensures { result ≡ version_rule psbt_version }
{
    if psbt_version.unwrap_or(0) == 2 {
        Ok(())
    } else {
        Err(PsbtError::NotAllowed)
    }
}

// The rule of the global map: what has to be there, then the version.
fn check_globals(g: Globals) -> Result<(), PsbtError>
    ensures { result ≡ globals_rule g }
{
    let psbt_version = g.psbt_version;
    if has_counts(g) {
        check_version(psbt_version)
    } else {
        Err(PsbtError::MissingCounts)
    }
}

// What is reported of the global map.
fn psbt_of(g: Globals) -> Psbt
    ensures { result ≡ psbt_from g }
{
    Psbt {
        tx_version: signed(g.tx_version.unwrap_or(0)),
        fallback_locktime: g.fallback_locktime,
        tx_modifiable: g.tx_modifiable,
        inputs: g.n_inputs,
        outputs: g.n_outputs,
    }
}

// Any of the two low flags of the modifiable byte is set.
fn is_modifiable(tx_modifiable: Option<u32>) -> bool
    ensures { result ≡ flags tx_modifiable }
{
    tx_modifiable.unwrap_or(0) & 0b11 != 0
}

// The rules of silent payments for one output.
fn validate_silent_payment_output(tx_modifiable: Option<u32>, seen: Seen) -> Result<(), PsbtError>
    ensures { result ≡ output_by (flags tx_modifiable) seen.script seen.code seen.label }
{
    if seen.script {
        if seen.code {
            if is_modifiable(tx_modifiable) {
                return Err(PsbtError::InvalidSilentPayment);
            }
            return Ok(());
        }
        if seen.label {
            return Err(PsbtError::InvalidSilentPayment);
        }
        return Ok(());
    }
    if seen.code {
        return Ok(());
    }
    Err(PsbtError::MissingOutputScript)
}

// One rule and then another: the first refusal.
fn and_then(a: Result<(), PsbtError>, b: Result<(), PsbtError>) -> Result<(), PsbtError>
    ensures { result ≡ and_then a b }
{
    a?;
    b
}

// Where the global map ended: its rule, and then how many inputs and outputs follow.
fn close_global(known: Known) -> Result<Known, PsbtError>
    ensures { result ≡ close_global known (globals_rule known.globals) }
{
    let globals = known.globals;
    check_globals(globals)?;
    Ok(Known {
        inputs: globals.n_inputs,
        outputs: globals.n_outputs,
        ..known
    })
}

// Where an output ended: the first breach of the output rules is kept.
fn close_output(known: Known) -> Known
    ensures { result ≡ close_output known }
{
    let globals = known.globals;
    let seen = known.seen;
    let ruled = known.ruled;
    let tx_modifiable = globals.tx_modifiable;
    Known {
        ruled: and_then(ruled, validate_silent_payment_output(tx_modifiable, seen)),
        ..known
    }
}

// Where the map that is read ended.
fn close_map(known: Known) -> Result<Known, PsbtError>
    ensures { result ≡ close known }
{
    match known.kind {
        MapKind::Global => close_global(known),
        MapKind::Input | MapKind::Other => Ok(known),
        MapKind::Output => Ok(close_output(known)),
    }
}

// After all maps: nothing is left over, and then the output rules.
fn finish(known: Known, left: bool) -> Result<Next, PsbtError>
    ensures { result ≡ finish known left }
{
    if left {
        return Err(PsbtError::UnexpectedEof);
    }
    let ruled = known.ruled;
    ruled?;
    Ok(Next::Done(psbt_of(known.globals)))
}

// The next map: an input, an output, or none.
fn start_map(known: Known, left: bool) -> Result<Next, PsbtError>
    ensures { result ≡ start known left }
{
    if 0 < known.inputs {
        return Ok(Next::Map(Known {
            kind: MapKind::Input,
            inputs: known.inputs - 1,
            ..known
        }));
    }
    if 0 < known.outputs {
        return Ok(Next::Map(Known {
            kind: MapKind::Output,
            outputs: known.outputs - 1,
            seen: UNSEEN,
            ..known
        }));
    }
    finish(known, left)
}

// What follows the map that is read.
pub fn after_map(known: Known, left: bool) -> Result<Next, PsbtError>
    ensures { result ≡ after known left }
{
    let closed = close_map(known)?;
    start_map(closed, left)
}

// What is known before the first map.
pub fn first_map() -> Known
    ensures { result ≡ at_first }
{
    Known {
        kind: MapKind::Global,
        globals: Globals {
            tx_version: None,
            fallback_locktime: None,
            n_inputs: 0,
            n_outputs: 0,
            tx_modifiable: None,
            psbt_version: None,
            has_inputs: false,
            has_outputs: false,
        },
        inputs: 0,
        outputs: 0,
        seen: UNSEEN,
        ruled: Ok(()),
    }
}
