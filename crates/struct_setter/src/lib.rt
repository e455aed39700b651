// The setter over a lent slice of records.
#![tactic(auto)]

ghost use Rattle.std.specs.Prelude.{◌≡◌};
ghost use Rattle.format.specs.Tables.{view};
ghost use Rattle.format.specs.Scripts.{whole, set_scripts};
ghost use Rattle.format.specs.Told.{told_left, told_set, told_set_out};

use format::{Assignment, Psbt, PsbtError, State};

// Sets scripts for the outputs without one: a list of records, their buffer, and a table of 35 bytes for each output.
pub fn set_sp_output_scripts(
    file: &[u8],
    pairs: &[u32],
    maps: &[u32],
    psbt: Psbt,
    list: &[Assignment],
    buffer: &[u8],
    state: State,
    scripts: &mut [u8],
) -> Result<State, PsbtError>
    ensures { told_left (told_set result) scripts.new
        ≡ told_set_out (set_scripts (view file.now pairs.now maps.now psbt) psbt
        (whole list.now) buffer.now state scripts.old) }
{
    setter::set_assigned(file, pairs, maps, psbt, list, buffer, state, scripts)
}

// The same of two records that are passed by value.
pub fn set_two(
    file: &[u8],
    pairs: &[u32],
    maps: &[u32],
    psbt: Psbt,
    list: [Assignment; 2],
    buffer: &[u8],
    state: State,
    scripts: &mut [u8],
) -> Result<State, PsbtError>
    ensures { told_left (told_set result) scripts.new
        ≡ told_set_out (set_scripts (view file.now pairs.now maps.now psbt) psbt
        (whole list) buffer.now state scripts.old) }
{
    set_sp_output_scripts(file, pairs, maps, psbt, &list, buffer, state, scripts)
}
