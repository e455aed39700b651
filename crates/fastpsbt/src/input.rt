// The fields of an input, by its own number from 0: where each stands in the file, or its number.
ghost use Rattle.std.specs.Prelude.{◌≡◌};
ghost use Rattle.format.specs.Fields.{final_scriptsig, final_scriptwitness, get_witness_utxo, input_participants, input_proof, input_share};
ghost use Rattle.format.specs.Fields.{non_witness_utxo, output_index, partial_sig, participant, participant_count, previous_txid, pub_nonce, redeem_script};
ghost use Rattle.format.specs.Fields.{required_height_locktime, required_time_locktime, sequence, sighash_type, sp_tweak, utxo_part, witness_script};
ghost use Rattle.format.specs.Fields.{witness_utxo_def};
ghost use Rattle.format.specs.Lookups.{list};
ghost use Rattle.format.specs.Tables.{held_input};
ghost use Rattle.format.specs.Told.{told_listing, told_looked, told_numbered, told_utxo};

use format::{Listed, Part, Psbt, PsbtError, WitnessUtxo};

// The whole previous transaction, as its bytes.
pub fn non_witness_utxo(
    file: &[u8],
    pairs: &[u32],
    maps: &[u32],
    psbt: Psbt,
    i: u64,
) -> Result<Option<Part>, PsbtError>
    ensures { told_looked result
        ≡ told_looked (non_witness_utxo file.now (held_input file.now pairs.now maps.now psbt i)) }
{
    typed::input::non_witness_utxo(file, pairs, maps, psbt, i)
}

// The output that is spent, as its bytes; `get_witness_utxo` reads it.
pub fn witness_utxo(
    file: &[u8],
    pairs: &[u32],
    maps: &[u32],
    psbt: Psbt,
    i: u64,
) -> Result<Option<Part>, PsbtError>
    ensures { told_looked result
        ≡ told_looked (witness_utxo_def file.now (held_input file.now pairs.now maps.now psbt i)) }
{
    typed::input::witness_utxo(file, pairs, maps, psbt, i)
}

// The signature hash type.
pub fn sighash_type(
    file: &[u8],
    pairs: &[u32],
    maps: &[u32],
    psbt: Psbt,
    i: u64,
) -> Result<Option<u64>, PsbtError>
    ensures { told_numbered result
        ≡ told_numbered (sighash_type file.now (held_input file.now pairs.now maps.now psbt i)) }
{
    typed::input::sighash_type(file, pairs, maps, psbt, i)
}

// The redeem script.
pub fn redeem_script(
    file: &[u8],
    pairs: &[u32],
    maps: &[u32],
    psbt: Psbt,
    i: u64,
) -> Result<Option<Part>, PsbtError>
    ensures { told_looked result
        ≡ told_looked (redeem_script file.now (held_input file.now pairs.now maps.now psbt i)) }
{
    typed::input::redeem_script(file, pairs, maps, psbt, i)
}

// The witness script.
pub fn witness_script(
    file: &[u8],
    pairs: &[u32],
    maps: &[u32],
    psbt: Psbt,
    i: u64,
) -> Result<Option<Part>, PsbtError>
    ensures { told_looked result
        ≡ told_looked (witness_script file.now (held_input file.now pairs.now maps.now psbt i)) }
{
    typed::input::witness_script(file, pairs, maps, psbt, i)
}

// The final script.
pub fn final_scriptsig(
    file: &[u8],
    pairs: &[u32],
    maps: &[u32],
    psbt: Psbt,
    i: u64,
) -> Result<Option<Part>, PsbtError>
    ensures { told_looked result
        ≡ told_looked (final_scriptsig file.now (held_input file.now pairs.now maps.now psbt i)) }
{
    typed::input::final_scriptsig(file, pairs, maps, psbt, i)
}

// The final witness.
pub fn final_scriptwitness(
    file: &[u8],
    pairs: &[u32],
    maps: &[u32],
    psbt: Psbt,
    i: u64,
) -> Result<Option<Part>, PsbtError>
    ensures { told_looked result
        ≡ told_looked (final_scriptwitness file.now (held_input file.now pairs.now maps.now psbt i)) }
{
    typed::input::final_scriptwitness(file, pairs, maps, psbt, i)
}

// The txid of the previous transaction, 32 bytes.
pub fn previous_txid(
    file: &[u8],
    pairs: &[u32],
    maps: &[u32],
    psbt: Psbt,
    i: u64,
) -> Result<Option<Part>, PsbtError>
    ensures { told_looked result
        ≡ told_looked (previous_txid file.now (held_input file.now pairs.now maps.now psbt i)) }
{
    typed::input::previous_txid(file, pairs, maps, psbt, i)
}

// Which of its outputs is spent.
pub fn output_index(
    file: &[u8],
    pairs: &[u32],
    maps: &[u32],
    psbt: Psbt,
    i: u64,
) -> Result<Option<u64>, PsbtError>
    ensures { told_numbered result
        ≡ told_numbered (output_index file.now (held_input file.now pairs.now maps.now psbt i)) }
{
    typed::input::output_index(file, pairs, maps, psbt, i)
}

// The sequence number.
pub fn sequence(
    file: &[u8],
    pairs: &[u32],
    maps: &[u32],
    psbt: Psbt,
    i: u64,
) -> Result<Option<u64>, PsbtError>
    ensures { told_numbered result
        ≡ told_numbered (sequence file.now (held_input file.now pairs.now maps.now psbt i)) }
{
    typed::input::sequence(file, pairs, maps, psbt, i)
}

// The lock time that the input asks for, as a time.
pub fn required_time_locktime(
    file: &[u8],
    pairs: &[u32],
    maps: &[u32],
    psbt: Psbt,
    i: u64,
) -> Result<Option<u64>, PsbtError>
    ensures { told_numbered result
        ≡ told_numbered (required_time_locktime file.now (held_input file.now pairs.now maps.now psbt i)) }
{
    typed::input::required_time_locktime(file, pairs, maps, psbt, i)
}

// The lock time that the input asks for, as a block height.
pub fn required_height_locktime(
    file: &[u8],
    pairs: &[u32],
    maps: &[u32],
    psbt: Psbt,
    i: u64,
) -> Result<Option<u64>, PsbtError>
    ensures { told_numbered result
        ≡ told_numbered (required_height_locktime file.now (held_input file.now pairs.now maps.now psbt i)) }
{
    typed::input::required_height_locktime(file, pairs, maps, psbt, i)
}

// The silent payment tweak, 32 bytes.
pub fn sp_tweak(
    file: &[u8],
    pairs: &[u32],
    maps: &[u32],
    psbt: Psbt,
    i: u64,
) -> Result<Option<Part>, PsbtError>
    ensures { told_looked result ≡ told_looked (sp_tweak file.now (held_input file.now pairs.now maps.now psbt i)) }
{
    typed::input::sp_tweak(file, pairs, maps, psbt, i)
}

// The pairs of a type.
pub fn iter_keys(
    file: &[u8],
    pairs: &[u32],
    maps: &[u32],
    psbt: Psbt,
    i: u64,
    key_type: u8,
) -> Result<Listed, PsbtError>
    ensures { told_listing result
        ≡ told_listing (list file.now key_type (held_input file.now pairs.now maps.now psbt i)) }
{
    typed::input::iter_keys(file, pairs, maps, psbt, i, key_type)
}

// The pairs of derivations.
pub fn bip32_derivations(
    file: &[u8],
    pairs: &[u32],
    maps: &[u32],
    psbt: Psbt,
    i: u64,
) -> Result<Listed, PsbtError>
    ensures { told_listing result
        ≡ told_listing (list file.now 0x06 (held_input file.now pairs.now maps.now psbt i)) }
{
    typed::input::bip32_derivations(file, pairs, maps, psbt, i)
}

// The ECDH share of a scan key.
pub fn get_sp_ecdh_share(
    file: &[u8],
    pairs: &[u32],
    maps: &[u32],
    psbt: Psbt,
    i: u64,
    scan_key: &[u8],
) -> Result<Option<Part>, PsbtError>
    ensures { told_looked result
        ≡ told_looked (input_share file.now scan_key.now
        (held_input file.now pairs.now maps.now psbt i)) }
{
    silent_payments::input::get_sp_ecdh_share(file, pairs, maps, psbt, i, scan_key)
}

// The DLEQ proof of a scan key.
pub fn get_sp_dleq_proof(
    file: &[u8],
    pairs: &[u32],
    maps: &[u32],
    psbt: Psbt,
    i: u64,
    scan_key: &[u8],
) -> Result<Option<Part>, PsbtError>
    ensures { told_looked result
        ≡ told_looked (input_proof file.now scan_key.now
        (held_input file.now pairs.now maps.now psbt i)) }
{
    silent_payments::input::get_sp_dleq_proof(file, pairs, maps, psbt, i, scan_key)
}

// All shares.
pub fn sp_ecdh_shares(
    file: &[u8],
    pairs: &[u32],
    maps: &[u32],
    psbt: Psbt,
    i: u64,
) -> Result<Listed, PsbtError>
    ensures { told_listing result
        ≡ told_listing (list file.now 0x1d (held_input file.now pairs.now maps.now psbt i)) }
{
    silent_payments::input::sp_ecdh_shares(file, pairs, maps, psbt, i)
}

// All proofs.
pub fn sp_dleq_proofs(
    file: &[u8],
    pairs: &[u32],
    maps: &[u32],
    psbt: Psbt,
    i: u64,
) -> Result<Listed, PsbtError>
    ensures { told_listing result
        ≡ told_listing (list file.now 0x1e (held_input file.now pairs.now maps.now psbt i)) }
{
    silent_payments::input::sp_dleq_proofs(file, pairs, maps, psbt, i)
}

// The derivations of silent payment spend keys.
pub fn sp_spend_bip32_derivations(
    file: &[u8],
    pairs: &[u32],
    maps: &[u32],
    psbt: Psbt,
    i: u64,
) -> Result<Listed, PsbtError>
    ensures { told_listing result
        ≡ told_listing (list file.now 0x1f (held_input file.now pairs.now maps.now psbt i)) }
{
    silent_payments::input::sp_spend_bip32_derivations(file, pairs, maps, psbt, i)
}

// The MuSig2 public nonce of a participant under an aggregate key; `leaf` is a leaf hash, or empty.
pub fn get_musig2_pub_nonce(
    file: &[u8],
    pairs: &[u32],
    maps: &[u32],
    psbt: Psbt,
    i: u64,
    participant: &[u8],
    aggregate: &[u8],
    leaf: &[u8],
) -> Result<Option<Part>, PsbtError>
    ensures { told_looked result
        ≡ told_looked (pub_nonce file.now participant.now
        aggregate.now leaf.now (held_input file.now pairs.now maps.now psbt i)) }
{
    musig2::input::get_musig2_pub_nonce(file, pairs, maps, psbt, i, participant, aggregate, leaf)
}

// The partial signature, likewise.
pub fn get_musig2_partial_sig(
    file: &[u8],
    pairs: &[u32],
    maps: &[u32],
    psbt: Psbt,
    i: u64,
    participant: &[u8],
    aggregate: &[u8],
    leaf: &[u8],
) -> Result<Option<Part>, PsbtError>
    ensures { told_looked result
        ≡ told_looked (partial_sig file.now participant.now
        aggregate.now leaf.now (held_input file.now pairs.now maps.now psbt i)) }
{
    musig2::input::get_musig2_partial_sig(file, pairs, maps, psbt, i, participant, aggregate, leaf)
}

// The participants of an aggregate key, a list of 33-byte keys.
pub fn get_musig2_participant_pubkeys(
    file: &[u8],
    pairs: &[u32],
    maps: &[u32],
    psbt: Psbt,
    i: u64,
    aggregate: &[u8],
    leaf: &[u8],
) -> Result<Option<Part>, PsbtError>
    ensures { told_looked result
        ≡ told_looked (input_participants file.now
        aggregate.now leaf.now (held_input file.now pairs.now maps.now psbt i)) }
{
    musig2::input::get_musig2_participant_pubkeys(file, pairs, maps, psbt, i, aggregate, leaf)
}

// How many they are.
pub fn get_musig2_participant_count(
    file: &[u8],
    pairs: &[u32],
    maps: &[u32],
    psbt: Psbt,
    i: u64,
    aggregate: &[u8],
    leaf: &[u8],
) -> Result<Option<u64>, PsbtError>
    ensures { told_numbered result
        ≡ told_numbered (participant_count (input_participants file.now
        aggregate.now leaf.now (held_input file.now pairs.now maps.now psbt i))) }
{
    musig2::input::get_musig2_participant_count(file, pairs, maps, psbt, i, aggregate, leaf)
}

// Participant number `n`.
pub fn get_musig2_participant(
    file: &[u8],
    pairs: &[u32],
    maps: &[u32],
    psbt: Psbt,
    i: u64,
    aggregate: &[u8],
    leaf: &[u8],
    n: usize,
) -> Result<Option<Part>, PsbtError>
    ensures { told_looked result
        ≡ told_looked (participant n (input_participants file.now
        aggregate.now leaf.now (held_input file.now pairs.now maps.now psbt i))) }
{
    musig2::input::get_musig2_participant(file, pairs, maps, psbt, i, aggregate, leaf, n)
}

// The output that is spent: its amount, and where its script stands.
pub fn get_witness_utxo(
    file: &[u8],
    pairs: &[u32],
    maps: &[u32],
    psbt: Psbt,
    i: u64,
) -> Result<Option<WitnessUtxo>, PsbtError>
    ensures { told_utxo result
        ≡ told_utxo (get_witness_utxo file.now (held_input file.now pairs.now maps.now psbt i)) }
{
    witness_utxo::get_witness_utxo(file, pairs, maps, psbt, i)
}

// That script, as the part of the file itself: empty for absence and refusal.
pub fn get_witness_utxo_script<'a>(
    file: &'a [u8],
    pairs: &[u32],
    maps: &[u32],
    psbt: Psbt,
    i: u64,
) -> &'a [u8]
    ensures { result.now
        ≡ utxo_part file.now
        (get_witness_utxo file.now (held_input file.now pairs.now maps.now psbt i)) }
{
    witness_utxo::get_witness_utxo_script(file, pairs, maps, psbt, i)
}
