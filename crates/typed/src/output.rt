// The fields of an output, by its own number: where each stands in the file, or its number.
ghost use Rattle.std.specs.Prelude.{◌≡◌};
ghost use Rattle.format.specs.Tables.{held_output};
ghost use Rattle.format.specs.Lookups.{list};
ghost use Rattle.format.specs.Fields.{out_redeem_script, out_witness_script, amount, script, sp_v0_info, sp_v0_label};
ghost use Rattle.format.specs.Told.{told_listing, told_looked, told_numbered};

use crate::{number_field, part_field};
use format::{
    Listed, PSBT_OUT_AMOUNT, PSBT_OUT_BIP32_DERIVATION, PSBT_OUT_REDEEM_SCRIPT, PSBT_OUT_SCRIPT,
    PSBT_OUT_SP_V0_INFO, PSBT_OUT_SP_V0_LABEL, PSBT_OUT_WITNESS_SCRIPT, Part, Psbt, PsbtError,
};
use lookup::Wanted;

// The redeem script.
pub fn redeem_script(
    file: &[u8],
    pairs: &[u32],
    maps: &[u32],
    psbt: Psbt,
    i: u64,
) -> Result<Option<Part>, PsbtError>
    ensures { told_looked result ≡ told_looked (out_redeem_script file.now
        (held_output file.now pairs.now maps.now psbt i)) }
{
    let m = fitness::fit_output(file, pairs, maps, psbt, i)?;
    part_field(file, pairs, m, PSBT_OUT_REDEEM_SCRIPT, Wanted::AnyLength)
}

// The witness script.
pub fn witness_script(
    file: &[u8],
    pairs: &[u32],
    maps: &[u32],
    psbt: Psbt,
    i: u64,
) -> Result<Option<Part>, PsbtError>
    ensures { told_looked result ≡ told_looked (out_witness_script file.now
        (held_output file.now pairs.now maps.now psbt i)) }
{
    let m = fitness::fit_output(file, pairs, maps, psbt, i)?;
    part_field(file, pairs, m, PSBT_OUT_WITNESS_SCRIPT, Wanted::AnyLength)
}

// The amount.
pub fn amount(
    file: &[u8],
    pairs: &[u32],
    maps: &[u32],
    psbt: Psbt,
    i: u64,
) -> Result<Option<u64>, PsbtError>
    ensures { told_numbered result ≡ told_numbered (amount file.now
        (held_output file.now pairs.now maps.now psbt i)) }
{
    let m = fitness::fit_output(file, pairs, maps, psbt, i)?;
    number_field(file, pairs, m, PSBT_OUT_AMOUNT, 8)
}

// The script.
pub fn script(
    file: &[u8],
    pairs: &[u32],
    maps: &[u32],
    psbt: Psbt,
    i: u64,
) -> Result<Option<Part>, PsbtError>
    ensures { told_looked result ≡ told_looked (script file.now (held_output file.now pairs.now maps.now psbt i)) }
{
    let m = fitness::fit_output(file, pairs, maps, psbt, i)?;
    part_field(file, pairs, m, PSBT_OUT_SCRIPT, Wanted::AnyLength)
}

// The silent payment code.
pub fn sp_v0_info(
    file: &[u8],
    pairs: &[u32],
    maps: &[u32],
    psbt: Psbt,
    i: u64,
) -> Result<Option<Part>, PsbtError>
    ensures { told_looked result ≡ told_looked (sp_v0_info file.now
        (held_output file.now pairs.now maps.now psbt i)) }
{
    let m = fitness::fit_output(file, pairs, maps, psbt, i)?;
    part_field(file, pairs, m, PSBT_OUT_SP_V0_INFO, Wanted::Exactly(66))
}

// Its label.
pub fn sp_v0_label(
    file: &[u8],
    pairs: &[u32],
    maps: &[u32],
    psbt: Psbt,
    i: u64,
) -> Result<Option<u64>, PsbtError>
    ensures { told_numbered result ≡ told_numbered (sp_v0_label file.now
        (held_output file.now pairs.now maps.now psbt i)) }
{
    let m = fitness::fit_output(file, pairs, maps, psbt, i)?;
    number_field(file, pairs, m, PSBT_OUT_SP_V0_LABEL, 4)
}

// The pairs of a type.
pub fn iter_keys(
    file: &[u8],
    pairs: &[u32],
    maps: &[u32],
    psbt: Psbt,
    i: u64,
    key_type: u8,
) -> Result<Listed, PsbtError>
    ensures { told_listing result ≡ told_listing (list file.now key_type
        (held_output file.now pairs.now maps.now psbt i)) }
{
    let fit = fitness::fit_output(file, pairs, maps, psbt, i);
    lookup::list_in(file, pairs, fit, key_type)
}

// The pairs of derivations.
pub fn bip32_derivations(
    file: &[u8],
    pairs: &[u32],
    maps: &[u32],
    psbt: Psbt,
    i: u64,
) -> Result<Listed, PsbtError>
    ensures { told_listing result ≡ told_listing (list file.now 0x02
        (held_output file.now pairs.now maps.now psbt i)) }
{
    iter_keys(file, pairs, maps, psbt, i, PSBT_OUT_BIP32_DERIVATION)
}
