// The MuSig2 participants of an output, by its own number.
ghost use Rattle.std.specs.Prelude.{◌≡◌};
ghost use Rattle.format.specs.Tables.{held_output};
ghost use Rattle.format.specs.Fields.{output_participants, participant_count, participant};
ghost use Rattle.format.specs.Told.{told_looked, told_numbered};

use crate::{nth_participant, participant_count};
use format::{PSBT_OUT_MUSIG2_PARTICIPANT_PUBKEYS, PUBKEY_LEN, Part, Psbt, PsbtError};
use lookup::Wanted;

// The list of participants under an aggregate key.
pub fn get_musig2_participant_pubkeys(
    file: &[u8],
    pairs: &[u32],
    maps: &[u32],
    psbt: Psbt,
    i: u64,
    aggregate: &[u8],
) -> Result<Option<Part>, PsbtError>
    ensures { told_looked result ≡ told_looked (output_participants file.now aggregate.now
        (held_output file.now pairs.now maps.now psbt i)) }
{
    let m = fitness::fit_output(file, pairs, maps, psbt, i)?;
    let ok = aggregate.len() == PUBKEY_LEN;
    lookup::asked_in(
        file,
        pairs,
        m,
        ok,
        Wanted::KeyList,
        PSBT_OUT_MUSIG2_PARTICIPANT_PUBKEYS,
        aggregate,
    )
}

// How many they are.
pub fn get_musig2_participant_count(
    file: &[u8],
    pairs: &[u32],
    maps: &[u32],
    psbt: Psbt,
    i: u64,
    aggregate: &[u8],
) -> Result<Option<u64>, PsbtError>
    ensures { told_numbered result ≡ told_numbered (participant_count
        (output_participants file.now aggregate.now (held_output file.now pairs.now maps.now psbt i))) }
{
    let list = get_musig2_participant_pubkeys(file, pairs, maps, psbt, i, aggregate)?;
    Ok(participant_count(list))
}

// Participant number `n` of that list.
pub fn get_musig2_participant(
    file: &[u8],
    pairs: &[u32],
    maps: &[u32],
    psbt: Psbt,
    i: u64,
    aggregate: &[u8],
    n: usize,
) -> Result<Option<Part>, PsbtError>
    ensures { told_looked result ≡ told_looked (participant n
        (output_participants file.now aggregate.now (held_output file.now pairs.now maps.now psbt i))) }
{
    let list = get_musig2_participant_pubkeys(file, pairs, maps, psbt, i, aggregate)?;
    nth_participant(file, list, n)
}
