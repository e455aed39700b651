// The fields of an output, by its own number from 0: where each stands in the file, or its number.
ghost use Rattle.std.specs.Prelude.{◌≡◌};
ghost use Rattle.format.specs.Fields.{amount, out_redeem_script, out_witness_script, output_participants};
ghost use Rattle.format.specs.Fields.{participant, participant_count, script, sp_v0_info, sp_v0_label};
ghost use Rattle.format.specs.Lookups.{list};
ghost use Rattle.format.specs.Tables.{held_output};
ghost use Rattle.format.specs.Told.{told_listing, told_looked, told_numbered, told_script};
ghost use Rattle.format.specs.Transaction.{output_script_def, script_part};

use format::{Listed, Part, Psbt, PsbtError, ScriptPlace, State};

// The redeem script.
pub fn redeem_script(
    file: &[u8],
    pairs: &[u32],
    maps: &[u32],
    psbt: Psbt,
    i: u64,
) -> Result<Option<Part>, PsbtError>
    ensures { told_looked result
        ≡ told_looked (out_redeem_script file.now (held_output file.now pairs.now maps.now psbt i)) }
{
    typed::output::redeem_script(file, pairs, maps, psbt, i)
}

// The witness script.
pub fn witness_script(
    file: &[u8],
    pairs: &[u32],
    maps: &[u32],
    psbt: Psbt,
    i: u64,
) -> Result<Option<Part>, PsbtError>
    ensures { told_looked result
        ≡ told_looked (out_witness_script file.now (held_output file.now pairs.now maps.now psbt i)) }
{
    typed::output::witness_script(file, pairs, maps, psbt, i)
}

// The amount.
pub fn amount(
    file: &[u8],
    pairs: &[u32],
    maps: &[u32],
    psbt: Psbt,
    i: u64,
) -> Result<Option<u64>, PsbtError>
    ensures { told_numbered result
        ≡ told_numbered (amount file.now (held_output file.now pairs.now maps.now psbt i)) }
{
    typed::output::amount(file, pairs, maps, psbt, i)
}

// The script.
pub fn script(
    file: &[u8],
    pairs: &[u32],
    maps: &[u32],
    psbt: Psbt,
    i: u64,
) -> Result<Option<Part>, PsbtError>
    ensures { told_looked result ≡ told_looked (script file.now (held_output file.now pairs.now maps.now psbt i)) }
{
    typed::output::script(file, pairs, maps, psbt, i)
}

// The silent payment code, 66 bytes.
pub fn sp_v0_info(
    file: &[u8],
    pairs: &[u32],
    maps: &[u32],
    psbt: Psbt,
    i: u64,
) -> Result<Option<Part>, PsbtError>
    ensures { told_looked result
        ≡ told_looked (sp_v0_info file.now (held_output file.now pairs.now maps.now psbt i)) }
{
    typed::output::sp_v0_info(file, pairs, maps, psbt, i)
}

// Its label.
pub fn sp_v0_label(
    file: &[u8],
    pairs: &[u32],
    maps: &[u32],
    psbt: Psbt,
    i: u64,
) -> Result<Option<u64>, PsbtError>
    ensures { told_numbered result
        ≡ told_numbered (sp_v0_label file.now (held_output file.now pairs.now maps.now psbt i)) }
{
    typed::output::sp_v0_label(file, pairs, maps, psbt, i)
}

// The pairs of a type.
pub fn iter_keys(
    file: &[u8],
    pairs: &[u32],
    maps: &[u32],
    psbt: Psbt,
    i: u64,
    key_type: u8,
) -> Result<Listed, PsbtError>
    ensures { told_listing result
        ≡ told_listing (list file.now key_type (held_output file.now pairs.now maps.now psbt i)) }
{
    typed::output::iter_keys(file, pairs, maps, psbt, i, key_type)
}

// The pairs of derivations.
pub fn bip32_derivations(
    file: &[u8],
    pairs: &[u32],
    maps: &[u32],
    psbt: Psbt,
    i: u64,
) -> Result<Listed, PsbtError>
    ensures { told_listing result
        ≡ told_listing (list file.now 0x02 (held_output file.now pairs.now maps.now psbt i)) }
{
    typed::output::bip32_derivations(file, pairs, maps, psbt, i)
}

// The participants of an aggregate key, a list of 33-byte keys.
pub fn get_musig2_participant_pubkeys(
    file: &[u8],
    pairs: &[u32],
    maps: &[u32],
    psbt: Psbt,
    i: u64,
    aggregate: &[u8],
) -> Result<Option<Part>, PsbtError>
    ensures { told_looked result
        ≡ told_looked (output_participants file.now
        aggregate.now (held_output file.now pairs.now maps.now psbt i)) }
{
    musig2::output::get_musig2_participant_pubkeys(file, pairs, maps, psbt, i, aggregate)
}

// How many they are.
pub fn get_musig2_participant_count(
    file: &[u8],
    pairs: &[u32],
    maps: &[u32],
    psbt: Psbt,
    i: u64,
    aggregate: &[u8],
) -> Result<Option<u64>, PsbtError>
    ensures { told_numbered result
        ≡ told_numbered (participant_count (output_participants file.now
        aggregate.now (held_output file.now pairs.now maps.now psbt i))) }
{
    musig2::output::get_musig2_participant_count(file, pairs, maps, psbt, i, aggregate)
}

// Participant number `n`.
pub fn get_musig2_participant(
    file: &[u8],
    pairs: &[u32],
    maps: &[u32],
    psbt: Psbt,
    i: u64,
    aggregate: &[u8],
    n: usize,
) -> Result<Option<Part>, PsbtError>
    ensures { told_looked result
        ≡ told_looked (participant n (output_participants file.now
        aggregate.now (held_output file.now pairs.now maps.now psbt i))) }
{
    musig2::output::get_musig2_participant(file, pairs, maps, psbt, i, aggregate, n)
}

// Where the script of an output stands: in the file, or in the script table once scripts are set.
pub fn output_script(
    file: &[u8],
    pairs: &[u32],
    maps: &[u32],
    psbt: Psbt,
    state: State,
    scripts: &[u8],
    i: u64,
) -> Result<Option<ScriptPlace>, PsbtError>
    ensures { told_script result
        ≡ told_script (output_script_def file.now state
        scripts.now i (held_output file.now pairs.now maps.now psbt i)) }
{
    output_script::output_script(file, pairs, maps, psbt, state, scripts, i)
}

// That script, as the part of the file or of the script table itself: empty for absence and refusal.
pub fn output_script_part<'a>(
    file: &'a [u8],
    pairs: &[u32],
    maps: &[u32],
    psbt: Psbt,
    state: State,
    scripts: &'a [u8],
    i: u64,
) -> &'a [u8]
    ensures { result.now
        ≡ script_part file.now scripts.now (output_script_def file.now state
        scripts.now i (held_output file.now pairs.now maps.now psbt i)) }
{
    output_script::output_script_part(file, pairs, maps, psbt, state, scripts, i)
}
