// Silent payments of the whole file, by scan key and as listings.
ghost use Rattle.std.specs.Prelude.{◌≡◌};
ghost use Rattle.format.specs.Fields.{global_proof, global_share};
ghost use Rattle.format.specs.Lookups.{list};
ghost use Rattle.format.specs.Tables.{held};
ghost use Rattle.format.specs.Told.{told_listing, told_looked};

use format::{Listed, Part, Psbt, PsbtError};

// The ECDH share of a scan key.
pub fn get_sp_ecdh_share(
    file: &[u8],
    pairs: &[u32],
    maps: &[u32],
    psbt: Psbt,
    scan_key: &[u8],
) -> Result<Option<Part>, PsbtError>
    ensures { told_looked result
        ≡ told_looked (global_share file.now scan_key.now
        (held file.now pairs.now maps.now psbt 0)) }
{
    silent_payments::global::get_sp_ecdh_share(file, pairs, maps, psbt, scan_key)
}

// The DLEQ proof of a scan key.
pub fn get_sp_dleq_proof(
    file: &[u8],
    pairs: &[u32],
    maps: &[u32],
    psbt: Psbt,
    scan_key: &[u8],
) -> Result<Option<Part>, PsbtError>
    ensures { told_looked result
        ≡ told_looked (global_proof file.now scan_key.now
        (held file.now pairs.now maps.now psbt 0)) }
{
    silent_payments::global::get_sp_dleq_proof(file, pairs, maps, psbt, scan_key)
}

// All shares.
pub fn sp_ecdh_shares(
    file: &[u8],
    pairs: &[u32],
    maps: &[u32],
    psbt: Psbt,
) -> Result<Listed, PsbtError>
    ensures { told_listing result ≡ told_listing (list file.now 0x07 (held file.now pairs.now maps.now psbt 0)) }
{
    silent_payments::global::sp_ecdh_shares(file, pairs, maps, psbt)
}

// All proofs.
pub fn sp_dleq_proofs(
    file: &[u8],
    pairs: &[u32],
    maps: &[u32],
    psbt: Psbt,
) -> Result<Listed, PsbtError>
    ensures { told_listing result ≡ told_listing (list file.now 0x08 (held file.now pairs.now maps.now psbt 0)) }
{
    silent_payments::global::sp_dleq_proofs(file, pairs, maps, psbt)
}
