// The fields of an input, by its own number: where each stands in the file, or its number.
ghost use Rattle.std.specs.Prelude.{◌≡◌};
ghost use Rattle.format.specs.Tables.{held_input};
ghost use Rattle.format.specs.Lookups.{list};
ghost use Rattle.format.specs.Fields.{non_witness_utxo, witness_utxo_def, sighash_type, redeem_script, witness_script, final_scriptsig};
ghost use Rattle.format.specs.Fields.{final_scriptwitness, previous_txid, output_index, sequence, required_time_locktime};
ghost use Rattle.format.specs.Fields.{required_height_locktime, sp_tweak};
ghost use Rattle.format.specs.Told.{told_listing, told_looked, told_numbered};

use crate::{number_field, part_field};
use format::{
    Listed, PSBT_IN_BIP32_DERIVATION, PSBT_IN_FINAL_SCRIPTSIG, PSBT_IN_FINAL_SCRIPTWITNESS,
    PSBT_IN_NON_WITNESS_UTXO, PSBT_IN_OUTPUT_INDEX, PSBT_IN_PREVIOUS_TXID, PSBT_IN_REDEEM_SCRIPT,
    PSBT_IN_REQUIRED_HEIGHT_LOCKTIME, PSBT_IN_REQUIRED_TIME_LOCKTIME, PSBT_IN_SEQUENCE,
    PSBT_IN_SIGHASH_TYPE, PSBT_IN_SP_TWEAK, PSBT_IN_WITNESS_SCRIPT, PSBT_IN_WITNESS_UTXO, Part,
    Psbt, PsbtError,
};
use lookup::Wanted;

// The whole previous transaction, as its bytes.
pub fn non_witness_utxo(
    file: &[u8],
    pairs: &[u32],
    maps: &[u32],
    psbt: Psbt,
    i: u64,
) -> Result<Option<Part>, PsbtError>
    ensures { told_looked result ≡ told_looked (non_witness_utxo file.now
        (held_input file.now pairs.now maps.now psbt i)) }
{
    let m = fitness::fit_input(file, pairs, maps, psbt, i)?;
    part_field(file, pairs, m, PSBT_IN_NON_WITNESS_UTXO, Wanted::AnyLength)
}

// The output that is spent, as its bytes.
pub fn witness_utxo(
    file: &[u8],
    pairs: &[u32],
    maps: &[u32],
    psbt: Psbt,
    i: u64,
) -> Result<Option<Part>, PsbtError>
    ensures { told_looked result ≡ told_looked (witness_utxo_def file.now
        (held_input file.now pairs.now maps.now psbt i)) }
{
    let m = fitness::fit_input(file, pairs, maps, psbt, i)?;
    part_field(file, pairs, m, PSBT_IN_WITNESS_UTXO, Wanted::AnyLength)
}

// The signature hash type.
pub fn sighash_type(
    file: &[u8],
    pairs: &[u32],
    maps: &[u32],
    psbt: Psbt,
    i: u64,
) -> Result<Option<u64>, PsbtError>
    ensures { told_numbered result ≡ told_numbered (sighash_type file.now
        (held_input file.now pairs.now maps.now psbt i)) }
{
    let m = fitness::fit_input(file, pairs, maps, psbt, i)?;
    number_field(file, pairs, m, PSBT_IN_SIGHASH_TYPE, 4)
}

// The redeem script.
pub fn redeem_script(
    file: &[u8],
    pairs: &[u32],
    maps: &[u32],
    psbt: Psbt,
    i: u64,
) -> Result<Option<Part>, PsbtError>
    ensures { told_looked result ≡ told_looked (redeem_script file.now
        (held_input file.now pairs.now maps.now psbt i)) }
{
    let m = fitness::fit_input(file, pairs, maps, psbt, i)?;
    part_field(file, pairs, m, PSBT_IN_REDEEM_SCRIPT, Wanted::AnyLength)
}

// The witness script.
pub fn witness_script(
    file: &[u8],
    pairs: &[u32],
    maps: &[u32],
    psbt: Psbt,
    i: u64,
) -> Result<Option<Part>, PsbtError>
    ensures { told_looked result ≡ told_looked (witness_script file.now
        (held_input file.now pairs.now maps.now psbt i)) }
{
    let m = fitness::fit_input(file, pairs, maps, psbt, i)?;
    part_field(file, pairs, m, PSBT_IN_WITNESS_SCRIPT, Wanted::AnyLength)
}

// The final script.
pub fn final_scriptsig(
    file: &[u8],
    pairs: &[u32],
    maps: &[u32],
    psbt: Psbt,
    i: u64,
) -> Result<Option<Part>, PsbtError>
    ensures { told_looked result ≡ told_looked (final_scriptsig file.now
        (held_input file.now pairs.now maps.now psbt i)) }
{
    let m = fitness::fit_input(file, pairs, maps, psbt, i)?;
    part_field(file, pairs, m, PSBT_IN_FINAL_SCRIPTSIG, Wanted::AnyLength)
}

// The final witness.
pub fn final_scriptwitness(
    file: &[u8],
    pairs: &[u32],
    maps: &[u32],
    psbt: Psbt,
    i: u64,
) -> Result<Option<Part>, PsbtError>
    ensures { told_looked result ≡ told_looked (final_scriptwitness file.now
        (held_input file.now pairs.now maps.now psbt i)) }
{
    let m = fitness::fit_input(file, pairs, maps, psbt, i)?;
    part_field(
        file,
        pairs,
        m,
        PSBT_IN_FINAL_SCRIPTWITNESS,
        Wanted::AnyLength,
    )
}

// The txid of the previous transaction.
pub fn previous_txid(
    file: &[u8],
    pairs: &[u32],
    maps: &[u32],
    psbt: Psbt,
    i: u64,
) -> Result<Option<Part>, PsbtError>
    ensures { told_looked result ≡ told_looked (previous_txid file.now
        (held_input file.now pairs.now maps.now psbt i)) }
{
    let m = fitness::fit_input(file, pairs, maps, psbt, i)?;
    part_field(file, pairs, m, PSBT_IN_PREVIOUS_TXID, Wanted::Exactly(32))
}

// Which of its outputs is spent.
pub fn output_index(
    file: &[u8],
    pairs: &[u32],
    maps: &[u32],
    psbt: Psbt,
    i: u64,
) -> Result<Option<u64>, PsbtError>
    ensures { told_numbered result ≡ told_numbered (output_index file.now
        (held_input file.now pairs.now maps.now psbt i)) }
{
    let m = fitness::fit_input(file, pairs, maps, psbt, i)?;
    number_field(file, pairs, m, PSBT_IN_OUTPUT_INDEX, 4)
}

// The sequence number.
pub fn sequence(
    file: &[u8],
    pairs: &[u32],
    maps: &[u32],
    psbt: Psbt,
    i: u64,
) -> Result<Option<u64>, PsbtError>
    ensures { told_numbered result ≡ told_numbered (sequence file.now
        (held_input file.now pairs.now maps.now psbt i)) }
{
    let m = fitness::fit_input(file, pairs, maps, psbt, i)?;
    number_field(file, pairs, m, PSBT_IN_SEQUENCE, 4)
}

// The lock time that the input asks for, as a time.
pub fn required_time_locktime(
    file: &[u8],
    pairs: &[u32],
    maps: &[u32],
    psbt: Psbt,
    i: u64,
) -> Result<Option<u64>, PsbtError>
    ensures { told_numbered result ≡ told_numbered (required_time_locktime file.now
        (held_input file.now pairs.now maps.now psbt i)) }
{
    let m = fitness::fit_input(file, pairs, maps, psbt, i)?;
    number_field(file, pairs, m, PSBT_IN_REQUIRED_TIME_LOCKTIME, 4)
}

// The lock time that the input asks for, as a block height.
pub fn required_height_locktime(
    file: &[u8],
    pairs: &[u32],
    maps: &[u32],
    psbt: Psbt,
    i: u64,
) -> Result<Option<u64>, PsbtError>
    ensures { told_numbered result ≡ told_numbered (required_height_locktime file.now
        (held_input file.now pairs.now maps.now psbt i)) }
{
    let m = fitness::fit_input(file, pairs, maps, psbt, i)?;
    number_field(file, pairs, m, PSBT_IN_REQUIRED_HEIGHT_LOCKTIME, 4)
}

// The silent payment tweak.
pub fn sp_tweak(
    file: &[u8],
    pairs: &[u32],
    maps: &[u32],
    psbt: Psbt,
    i: u64,
) -> Result<Option<Part>, PsbtError>
    ensures { told_looked result ≡ told_looked (sp_tweak file.now (held_input file.now pairs.now maps.now psbt i)) }
{
    let m = fitness::fit_input(file, pairs, maps, psbt, i)?;
    part_field(file, pairs, m, PSBT_IN_SP_TWEAK, Wanted::Exactly(32))
}

// The pairs of a type.
pub fn iter_keys(
    file: &[u8],
    pairs: &[u32],
    maps: &[u32],
    psbt: Psbt,
    i: u64,
    key_type: u8,
) -> Result<Listed, PsbtError>
    ensures { told_listing result ≡ told_listing (list file.now key_type
        (held_input file.now pairs.now maps.now psbt i)) }
{
    let fit = fitness::fit_input(file, pairs, maps, psbt, i);
    lookup::list_in(file, pairs, fit, key_type)
}

// The pairs of derivations.
pub fn bip32_derivations(
    file: &[u8],
    pairs: &[u32],
    maps: &[u32],
    psbt: Psbt,
    i: u64,
) -> Result<Listed, PsbtError>
    ensures { told_listing result ≡ told_listing (list file.now 0x06
        (held_input file.now pairs.now maps.now psbt i)) }
{
    iter_keys(file, pairs, maps, psbt, i, PSBT_IN_BIP32_DERIVATION)
}
