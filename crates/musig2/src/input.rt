// MuSig2 of an input, by its own number: a participant's nonce and signature, and the lists of participants.
ghost use Rattle.std.specs.Prelude.{◌≡◌};
ghost use Rattle.format.specs.Tables.{held_input};
ghost use Rattle.format.specs.Fields.{pub_nonce, partial_sig, input_participants, participant_count, participant};
ghost use Rattle.format.specs.Told.{told_looked, told_numbered};

use crate::{joined_lookup, key_fits, musig_lookup, nth_participant, participant_count};
use format::{
    PSBT_IN_MUSIG2_PARTIAL_SIG, PSBT_IN_MUSIG2_PARTICIPANT_PUBKEYS, PSBT_IN_MUSIG2_PUB_NONCE, Part,
    Psbt, PsbtError,
};
use lookup::Wanted;

// The public nonce of a participant; an empty leaf hash is left out.
pub fn get_musig2_pub_nonce(
    file: &[u8],
    pairs: &[u32],
    maps: &[u32],
    psbt: Psbt,
    i: u64,
    participant: &[u8],
    aggregate: &[u8],
    leaf: &[u8],
) -> Result<Option<Part>, PsbtError>
    ensures { told_looked result ≡ told_looked (pub_nonce file.now participant.now aggregate.now leaf.now
        (held_input file.now pairs.now maps.now psbt i)) }
{
    let m = fitness::fit_input(file, pairs, maps, psbt, i)?;
    musig_lookup(
        file,
        pairs,
        m,
        PSBT_IN_MUSIG2_PUB_NONCE,
        66,
        participant,
        aggregate,
        leaf,
    )
}

// The partial signature of a participant.
pub fn get_musig2_partial_sig(
    file: &[u8],
    pairs: &[u32],
    maps: &[u32],
    psbt: Psbt,
    i: u64,
    participant: &[u8],
    aggregate: &[u8],
    leaf: &[u8],
) -> Result<Option<Part>, PsbtError>
    ensures { told_looked result ≡ told_looked (partial_sig file.now participant.now aggregate.now leaf.now
        (held_input file.now pairs.now maps.now psbt i)) }
{
    let m = fitness::fit_input(file, pairs, maps, psbt, i)?;
    musig_lookup(
        file,
        pairs,
        m,
        PSBT_IN_MUSIG2_PARTIAL_SIG,
        32,
        participant,
        aggregate,
        leaf,
    )
}

// The list of participants under an aggregate key and perhaps a leaf hash.
pub fn get_musig2_participant_pubkeys(
    file: &[u8],
    pairs: &[u32],
    maps: &[u32],
    psbt: Psbt,
    i: u64,
    aggregate: &[u8],
    leaf: &[u8],
) -> Result<Option<Part>, PsbtError>
    ensures { told_looked result ≡ told_looked (input_participants file.now aggregate.now leaf.now
        (held_input file.now pairs.now maps.now psbt i)) }
{
    let m = fitness::fit_input(file, pairs, maps, psbt, i)?;
    if !key_fits(aggregate, leaf) {
        return Err(PsbtError::BadValue);
    }
    joined_lookup(
        file,
        pairs,
        m,
        Wanted::KeyList,
        PSBT_IN_MUSIG2_PARTICIPANT_PUBKEYS,
        &file[..0],
        aggregate,
        leaf,
    )
}

// How many they are.
pub fn get_musig2_participant_count(
    file: &[u8],
    pairs: &[u32],
    maps: &[u32],
    psbt: Psbt,
    i: u64,
    aggregate: &[u8],
    leaf: &[u8],
) -> Result<Option<u64>, PsbtError>
    ensures { told_numbered result ≡ told_numbered (participant_count (input_participants file.now aggregate.now leaf.now
        (held_input file.now pairs.now maps.now psbt i))) }
{
    let list = get_musig2_participant_pubkeys(file, pairs, maps, psbt, i, aggregate, leaf)?;
    Ok(participant_count(list))
}

// Participant number `n` of that list.
pub fn get_musig2_participant(
    file: &[u8],
    pairs: &[u32],
    maps: &[u32],
    psbt: Psbt,
    i: u64,
    aggregate: &[u8],
    leaf: &[u8],
    n: usize,
) -> Result<Option<Part>, PsbtError>
    ensures { told_looked result ≡ told_looked (participant n (input_participants file.now aggregate.now leaf.now
        (held_input file.now pairs.now maps.now psbt i))) }
{
    let list = get_musig2_participant_pubkeys(file, pairs, maps, psbt, i, aggregate, leaf)?;
    nth_participant(file, list, n)
}
