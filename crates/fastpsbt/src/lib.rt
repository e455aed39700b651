// The one door: every call that terminal firmware makes, under the names of the Rust original. Each takes any bytes, tables and
// numbers, ends, and keeps one promise; what stands below this crate is not meant to be called from outside.
//
// A file is parsed once, into two lent tables. All later calls take the file, both tables as they were left and what the parse
// reported. Refusals carry their numbers (`PsbtError::number`).
#![tactic(auto)]

ghost use Rattle.std.specs.Prelude.{◌≡◌};
ghost use Rattle.format.specs.Lookups.{part};
ghost use Rattle.format.specs.Parse.{parsed};
ghost use Rattle.format.specs.Scripts.{flat, set_scripts};
ghost use Rattle.format.specs.Tables.{view};
ghost use Rattle.format.specs.Told.{told_left, told_lock, told_parse, told_parsed, told_set, told_set_out, told_tx, told_tx_out, told_with};
ghost use Rattle.format.specs.Transaction.{lock_decided, unsigned_tx_def};

use format::{Lock, Parsed, Part, Psbt, PsbtError, State, Written};

pub mod global;
pub mod input;
pub mod map;
pub mod output;

// Parses a file: four words for each pair go into `pairs`, two for each map into `maps`. It reports the global fields and how many entries
// are used; a refusal too reports these, and leaves the entries of pairs accepted and maps ended before it.
pub fn parse(file: &[u8], pairs: &mut [u32], maps: &mut [u32]) -> Parsed
    ensures { told_with (told_parsed result) pairs.new maps.new
        ≡ told_parse (parsed file.now pairs.old maps.old) }
{
    psbt::parse(file, pairs, maps)
}

// The part of the file that a lookup's answer names: empty for absence and refusal.
pub fn part_of(file: &[u8], looked: Result<Option<Part>, PsbtError>) -> &[u8]
    ensures { result.now ≡ part file.now looked }
{
    lookup::part_of(file, looked)
}

// What decides the lock time: the greatest height or time and the input that asks for it, the fallback, or the rule that refuses and
// the input at fault.
pub fn lock_decided(file: &[u8], pairs: &[u32], maps: &[u32], psbt: Psbt) -> Result<Lock, PsbtError>
    ensures { told_lock result ≡ told_lock (lock_decided (view file.now pairs.now maps.now psbt) psbt) }
{
    lock::lock_decided(file, pairs, maps, psbt)
}

// Sets scripts for the outputs that have none. `list` holds three numbers for each assignment: the output, and where its script starts
// in `buffer` and how long it is. `scripts` takes 35 bytes for each output.
pub fn set_sp_output_scripts(
    file: &[u8],
    pairs: &[u32],
    maps: &[u32],
    psbt: Psbt,
    list: &[u64],
    buffer: &[u8],
    state: State,
    scripts: &mut [u8],
) -> Result<State, PsbtError>
    ensures { told_left (told_set result) scripts.new
        ≡ told_set_out (set_scripts (view file.now pairs.now maps.now psbt) psbt
        (flat list.now) buffer.now state scripts.old) }
{
    setter::set_sp_output_scripts(file, pairs, maps, psbt, list, buffer, state, scripts)
}

// Writes the unsigned transaction from the front of `out` on, with the scripts set in `scripts` where `state` says that they are. It
// answers the length and the new state; a refusal writes nothing.
pub fn unsigned_tx(
    file: &[u8],
    pairs: &[u32],
    maps: &[u32],
    psbt: Psbt,
    state: State,
    scripts: &[u8],
    out: &mut [u8],
) -> Result<Written, PsbtError>
    ensures { told_left (told_tx result) out.new
        ≡ told_tx_out (unsigned_tx_def (view file.now pairs.now maps.now psbt) psbt state
        scripts.now out.old) }
{
    unsigned_tx::unsigned_tx(file, pairs, maps, psbt, state, scripts, out)
}
