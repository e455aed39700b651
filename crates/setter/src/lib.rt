// The setter: scripts that the signer gives to the outputs without one.
#![tactic(auto)]

ghost use Rattle.std.specs.Prelude.{◌≡◌, ◌∷◌, ◌+◌, ◌*◌, ◌^◌, ◌<◌, ◌≤◌, length, replicate, take};
ghost use Rattle.format.specs.Tests.{every};
ghost use Rattle.format.specs.Content.{present};
ghost use Rattle.format.specs.Tables.{view};
ghost use Rattle.format.specs.Scripts.{script_entry, script_in, allowed, named, served, flat, entry_for, settable, set_out_def, set_given, set_scripts};
ghost use Rattle.format.specs.Told.{told_left, told_set, told_set_out};
ghost use Rattle.writer.specs.Writes.{wrote};
ghost use Rattle.all_maps_fit.specs.Alls.{AllFit, out_at, outs_of};
ghost use Rattle.setter.specs.Records.{lies, sound, first_of};
ghost use Rattle.setter.specs.Fills.{entries_from, state_after, filled_for, Giving, Sound, Ready};
ghost use Rattle.setter.specs.Rights.{served_at, given_by, right_given, OutputOf};

mod assignments;
#[cfg(test)]
mod tests;

pub use assignments::{Assignments, Few};
use assignments::{Held, Numbers};
use format::{Assignment, Psbt, PsbtError, State};

// The script of an assignment lies in the buffer. Start and length are never added before they are tested.
fn script_lies(buffer: &[u8], a: Assignment) -> bool
    ensures { result ≡ lies buffer.now a }
{
    let room = buffer.len() as u64;
    a.start <= room && a.len <= room - a.start
}

// The script of an assignment that lies in the buffer.
fn script_in(buffer: &[u8], a: Assignment) -> &[u8]
    requires { a.start + a.len ≤ length buffer.now }
    ensures { result.now ≡ script_in buffer.now a }
{
    let at = a.start as usize;
    &buffer[at..at + a.len as usize]
}

// An assignment's script lies in the buffer and is a taproot script.
pub fn is_taproot(buffer: &[u8], a: Assignment) -> bool
    ensures { result ≡ sound buffer.now a }
{
    script_lies(buffer, a) && scripts::is_taproot(script_in(buffer, a))
}

// An assignment is right by itself: its output exists and its script is one.
pub fn is_allowed(outputs: u64, buffer: &[u8], a: Assignment) -> bool
    ensures { result ≡ allowed outputs buffer.now a }
{
    a.output < outputs && is_taproot(buffer, a)
}

// Each assignment of a list is right by itself.
fn all_allowed<L: Assignments>(outputs: u64, list: L, buffer: &[u8]) -> bool
    ensures { result ≡ every (allowed outputs buffer.now) (L.held list) }
{
    Held { list }.all(|a| is_allowed(outputs, buffer, a))
}

// How many assignments name output `i`, in a list that a number of 64 bits can count.
fn named_count<L: Assignments>(list: L, i: u64) -> usize
    requires { length (L.held list) < 2 ^ 64 }
    ensures { result ≡ length (named i (L.held list)) }
{
    let mut n = 0;
    // Kept: no `filter` and `count`, which leave their loop at each match: adding each test's answer is one loop.
    for a in (Held { list }) {
        n += (a.output == i) as usize;
    }
    n
}

// How many assignments name output `i`, as far as two, which no list is too long for.
fn count_to_two<L: Assignments>(list: L, i: u64) -> usize
    ensures { result ≡ length (take 2 (named i (L.held list))) }
{
    if list.is_few() {
        return named_count(list, i).min(2);
    }
    Held { list }.filter(|a| a.output == i).take(2).count()
}

// The first assignment that names output `i`.
fn first_named<L: Assignments>(list: L, i: u64) -> Option<Assignment>
    ensures { result ≡ first_of (named i (L.held list)) }
{
    Held { list }.find(|a| a.output == i)
}

// Writes 01 and a script.
fn put_script(table: &mut [u8], at: usize, script: &[u8])
    requires { at + (1 + length script.now) ≤ length table.old }
    ensures { table.new ≡ wrote table.old at (1 ∷ script.now) }
{
    table[at] = 1;
    writer::put_bytes(table, at + 1, script);
}

// Writes the entry of an output that gets no script: zero bytes.
pub fn put_zeros(table: &mut [u8], at: usize)
    requires { at + script_entry ≤ length table.old }
    ensures { table.new ≡ wrote table.old at (replicate script_entry 0) }
{
    let zeros = [0u8; scripts::ENTRY];
    writer::put_bytes(table, at, &zeros);
}

// Writes the entry of an output that gets one: 01 and the script.
pub fn put_given(table: &mut [u8], at: usize, buffer: &[u8], a: Assignment)
    requires { Giving table.old at buffer.now a }
    ensures { table.new ≡ wrote table.old at (1 ∷ script_in buffer.now a) }
{
    put_script(table, at, script_in(buffer, a));
}

// Writes the entry of output `i`: 01 and the script that is given for it, or zero bytes.
fn put_entry<L: Assignments>(table: &mut [u8], i: usize, list: L, buffer: &[u8])
    requires { Ready table.old (i * script_entry + script_entry) buffer.now (L.held list) }
    ensures { table.new ≡ wrote table.old (i * script_entry)
        (entry_for buffer.now (named i (L.held list))) }
{
    let at = i * scripts::ENTRY;
    match first_named(list, i as u64) {
        None => put_zeros(table, at),
        Some(a) => put_given(table, at, buffer, a),
    }
}

// Writes the entries of all outputs.
fn put_entries<L: Assignments>(table: &mut [u8], outputs: usize, list: L, buffer: &[u8])
    requires { Ready table.old (outputs * script_entry) buffer.now (L.held list) }
    ensures { table.new ≡ wrote table.old 0 (entries_from buffer.now (L.held list) 0 outputs) }
{
    for i in 0..outputs {
        put_entry(table, i, list, buffer);
    }
}

// The state, with scripts set; with no outputs nothing counts as set.
pub fn state_after(state: State, outputs: u64) -> State
    ensures { result ≡ state_after state outputs }
{
    if outputs == 0 {
        return state;
    }
    State { set: true, ..state }
}

// Fills the table, if it has the room.
fn fill<L: Assignments>(
    outputs: u64,
    list: L,
    buffer: &[u8],
    state: State,
    table: &mut [u8],
) -> Result<State, PsbtError>
    requires { Sound buffer.now (L.held list) }
    ensures { set_out_def result table.new ≡ filled_for outputs buffer.now state table.old (L.held list) }
{
    if outputs <= (table.len() / scripts::ENTRY) as u64 {
        put_entries(table, outputs as usize, list, buffer);
        return Ok(state_after(state, outputs));
    }
    Err(PsbtError::NoRoom)
}

// Output `i` has script 04.
pub fn has_script(file: &[u8], pairs: &[u32], maps: &[u32], psbt: Psbt, i: u64) -> bool
    requires { OutputOf file.now pairs.now maps.now psbt i }
    ensures { result ≡ present (out_at file.now pairs.now maps.now psbt i).script }
{
    let m = all_maps_fit::output_entry(maps, psbt, i);
    all_maps_fit::found_field(file, pairs, m, format::PSBT_OUT_SCRIPT).is_some()
}

// Output `i` is named once where it has no script 04, and never where it has one.
fn is_served<L: Assignments>(
    file: &[u8],
    pairs: &[u32],
    maps: &[u32],
    psbt: Psbt,
    list: L,
    i: u64,
) -> bool
    requires { OutputOf file.now pairs.now maps.now psbt i }
    ensures { result ≡ served_at (L.held list) i (out_at file.now pairs.now maps.now psbt i) }
{
    let n = count_to_two(list, i);
    if has_script(file, pairs, maps, psbt, i) {
        n == 0
    } else {
        n == 1
    }
}

// Each output is.
fn all_served<L: Assignments>(file: &[u8], pairs: &[u32], maps: &[u32], psbt: Psbt, list: L) -> bool
    requires { AllFit file.now pairs.now maps.now psbt }
    ensures { result ≡ served 0 (outs_of file.now pairs.now maps.now psbt) (L.held list) }
{
    for i in 0..psbt.outputs {
        if !is_served(file, pairs, maps, psbt, list, i) {
            return false;
        }
    }
    true
}

// Scripts may still be set.
pub fn is_settable(state: State) -> bool
    ensures { result ≡ settable state }
{
    !(state.set || state.written)
}

// What is given is whole, may still be set, and is right for the outputs.
fn is_right<L: Assignments>(
    file: &[u8],
    pairs: &[u32],
    maps: &[u32],
    psbt: Psbt,
    list: L,
    buffer: &[u8],
    state: State,
) -> bool
    requires { AllFit file.now pairs.now maps.now psbt }
    ensures { result ≡ right_given (outs_of file.now pairs.now maps.now psbt) buffer.now state
        (given_by (L.complete list) (L.held list)) }
{
    list.is_whole()
        && (is_settable(state)
            && (all_allowed(psbt.outputs, list, buffer)
                && all_served(file, pairs, maps, psbt, list)))
}

// The setter, where all maps are fit.
fn set_fit<L: Assignments>(
    file: &[u8],
    pairs: &[u32],
    maps: &[u32],
    psbt: Psbt,
    list: L,
    buffer: &[u8],
    state: State,
    table: &mut [u8],
) -> Result<State, PsbtError>
    requires { AllFit file.now pairs.now maps.now psbt }
    ensures { set_out_def result table.new ≡ set_given (outs_of file.now pairs.now maps.now psbt)
        buffer.now state table.old (given_by (L.complete list) (L.held list)) }
{
    if is_right(file, pairs, maps, psbt, list, buffer, state) {
        return fill(psbt.outputs, list, buffer, state, table);
    }
    Err(PsbtError::InvalidOutputScripts)
}

// Sets scripts for the outputs without one: a list of assignments, their buffer, and a table of 35 bytes for each output.
pub fn set_assigned<L: Assignments>(
    file: &[u8],
    pairs: &[u32],
    maps: &[u32],
    psbt: Psbt,
    list: L,
    buffer: &[u8],
    state: State,
    scripts: &mut [u8],
) -> Result<State, PsbtError>
    ensures { told_left (told_set result) scripts.new ≡ told_set_out (set_scripts
        (view file.now pairs.now maps.now psbt) psbt (given_by (L.complete list) (L.held list)) buffer.now state
        scripts.old) }
{
    all_maps_fit::all_fit(file, pairs, maps, psbt)?;
    set_fit(file, pairs, maps, psbt, list, buffer, state, scripts)
}

// The same of a list of numbers, three for each assignment (output, start and length in the buffer).
pub fn set_sp_output_scripts(
    file: &[u8],
    pairs: &[u32],
    maps: &[u32],
    psbt: Psbt,
    list: &[u64],
    buffer: &[u8],
    state: State,
    scripts: &mut [u8],
) -> Result<State, PsbtError>
    ensures { told_left (told_set result) scripts.new ≡ told_set_out (set_scripts
        (view file.now pairs.now maps.now psbt) psbt (flat list.now) buffer.now state
        scripts.old) }
{
    let numbers = Numbers { list };
    set_assigned(file, pairs, maps, psbt, numbers, buffer, state, scripts)
}
