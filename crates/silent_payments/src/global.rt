// Silent payments of the whole file, by scan key and as listings.
ghost use Rattle.std.specs.Prelude.{◌≡◌};
ghost use Rattle.format.specs.Tables.{held};
ghost use Rattle.format.specs.Lookups.{list};
ghost use Rattle.format.specs.Fields.{global_share, global_proof};
ghost use Rattle.format.specs.Told.{told_listing, told_looked};

use crate::{PROOF_LEN, scan_lookup};
use format::{
    Listed, PSBT_GLOBAL_SP_DLEQ, PSBT_GLOBAL_SP_ECDH_SHARE, PUBKEY_LEN, Part, Psbt, PsbtError,
};

// The share of a scan key.
pub fn get_sp_ecdh_share(
    file: &[u8],
    pairs: &[u32],
    maps: &[u32],
    psbt: Psbt,
    scan_key: &[u8],
) -> Result<Option<Part>, PsbtError>
    ensures { told_looked result ≡ told_looked (global_share file.now scan_key.now
        (held file.now pairs.now maps.now psbt 0)) }
{
    let m = fitness::fit_map(file, pairs, maps, psbt, 0)?;
    scan_lookup(
        file,
        pairs,
        m,
        PSBT_GLOBAL_SP_ECDH_SHARE,
        PUBKEY_LEN,
        scan_key,
    )
}

// The proof of a scan key.
pub fn get_sp_dleq_proof(
    file: &[u8],
    pairs: &[u32],
    maps: &[u32],
    psbt: Psbt,
    scan_key: &[u8],
) -> Result<Option<Part>, PsbtError>
    ensures { told_looked result ≡ told_looked (global_proof file.now scan_key.now
        (held file.now pairs.now maps.now psbt 0)) }
{
    let m = fitness::fit_map(file, pairs, maps, psbt, 0)?;
    scan_lookup(file, pairs, m, PSBT_GLOBAL_SP_DLEQ, PROOF_LEN, scan_key)
}

// The pairs that hold shares.
pub fn sp_ecdh_shares(
    file: &[u8],
    pairs: &[u32],
    maps: &[u32],
    psbt: Psbt,
) -> Result<Listed, PsbtError>
    ensures { told_listing result ≡ told_listing (list file.now 0x07 (held file.now pairs.now maps.now psbt 0)) }
{
    lookup::list(file, pairs, maps, psbt, 0, PSBT_GLOBAL_SP_ECDH_SHARE)
}

// The pairs that hold proofs.
pub fn sp_dleq_proofs(
    file: &[u8],
    pairs: &[u32],
    maps: &[u32],
    psbt: Psbt,
) -> Result<Listed, PsbtError>
    ensures { told_listing result ≡ told_listing (list file.now 0x08 (held file.now pairs.now maps.now psbt 0)) }
{
    lookup::list(file, pairs, maps, psbt, 0, PSBT_GLOBAL_SP_DLEQ)
}
