// Silent payments of an input, by its own number: by scan key and as listings.
ghost use Rattle.std.specs.Prelude.{◌≡◌};
ghost use Rattle.format.specs.Tables.{held_input};
ghost use Rattle.format.specs.Lookups.{list};
ghost use Rattle.format.specs.Fields.{input_share, input_proof};
ghost use Rattle.format.specs.Told.{told_listing, told_looked};

use crate::{PROOF_LEN, scan_lookup};
use format::{
    Listed, PSBT_IN_SP_DLEQ, PSBT_IN_SP_ECDH_SHARE, PSBT_IN_SP_SPEND_BIP32_DERIVATION, PUBKEY_LEN,
    Part, Psbt, PsbtError,
};

// The share of a scan key.
pub fn get_sp_ecdh_share(
    file: &[u8],
    pairs: &[u32],
    maps: &[u32],
    psbt: Psbt,
    i: u64,
    scan_key: &[u8],
) -> Result<Option<Part>, PsbtError>
    ensures { told_looked result ≡ told_looked (input_share file.now scan_key.now
        (held_input file.now pairs.now maps.now psbt i)) }
{
    let m = fitness::fit_input(file, pairs, maps, psbt, i)?;
    scan_lookup(file, pairs, m, PSBT_IN_SP_ECDH_SHARE, PUBKEY_LEN, scan_key)
}

// The proof of a scan key.
pub fn get_sp_dleq_proof(
    file: &[u8],
    pairs: &[u32],
    maps: &[u32],
    psbt: Psbt,
    i: u64,
    scan_key: &[u8],
) -> Result<Option<Part>, PsbtError>
    ensures { told_looked result ≡ told_looked (input_proof file.now scan_key.now
        (held_input file.now pairs.now maps.now psbt i)) }
{
    let m = fitness::fit_input(file, pairs, maps, psbt, i)?;
    scan_lookup(file, pairs, m, PSBT_IN_SP_DLEQ, PROOF_LEN, scan_key)
}

// The pairs that hold shares.
pub fn sp_ecdh_shares(
    file: &[u8],
    pairs: &[u32],
    maps: &[u32],
    psbt: Psbt,
    i: u64,
) -> Result<Listed, PsbtError>
    ensures { told_listing result ≡ told_listing (list file.now 0x1d
        (held_input file.now pairs.now maps.now psbt i)) }
{
    typed::input::iter_keys(file, pairs, maps, psbt, i, PSBT_IN_SP_ECDH_SHARE)
}

// The pairs that hold proofs.
pub fn sp_dleq_proofs(
    file: &[u8],
    pairs: &[u32],
    maps: &[u32],
    psbt: Psbt,
    i: u64,
) -> Result<Listed, PsbtError>
    ensures { told_listing result ≡ told_listing (list file.now 0x1e
        (held_input file.now pairs.now maps.now psbt i)) }
{
    typed::input::iter_keys(file, pairs, maps, psbt, i, PSBT_IN_SP_DLEQ)
}

// The pairs that hold origins of spend keys.
pub fn sp_spend_bip32_derivations(
    file: &[u8],
    pairs: &[u32],
    maps: &[u32],
    psbt: Psbt,
    i: u64,
) -> Result<Listed, PsbtError>
    ensures { told_listing result ≡ told_listing (list file.now 0x1f
        (held_input file.now pairs.now maps.now psbt i)) }
{
    typed::input::iter_keys(
        file,
        pairs,
        maps,
        psbt,
        i,
        PSBT_IN_SP_SPEND_BIP32_DERIVATION,
    )
}
