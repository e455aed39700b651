// The witness UTXO of an input: its amount, and its script.
#![tactic(auto)]

ghost use Rattle.std.specs.Prelude.{◌≡◌, Ok};
ghost use Rattle.format.specs.Tables.{held_input};
ghost use Rattle.format.specs.Fields.{utxo_of, utxo_by, utxo_part, get_witness_utxo};
ghost use Rattle.format.specs.Told.{told_utxo};
ghost use Rattle.witness_utxo.specs.Placed.{Placed};

use fitness::bytes_at;
use format::{Part, Psbt, PsbtError, WitnessUtxo};

// Where the script begins: behind 8 bytes of amount and one of length.
const SCRIPT: usize = 9;

// The longest script that one byte tells the length of.
const LONGEST: usize = 0xfc;

// A witness UTXO at `start`: 8 bytes of amount, one of length up to fc, exactly so many of script.
fn utxo_at(start: usize, v: &[u8]) -> Result<Option<WitnessUtxo>, PsbtError>
    requires { Placed start v.now }
    ensures { result ≡ utxo_of start v.now }
{
    if v.len() < SCRIPT {
        return Err(PsbtError::BadValue);
    }
    let n = v[8] as usize;
    if LONGEST < n || v.len() != SCRIPT + n {
        return Err(PsbtError::BadValue);
    }
    Ok(Some(WitnessUtxo {
        amount: wire::u64_from_le_bytes(v),
        start: start + SCRIPT,
        len: n,
    }))
}

// The witness UTXO that a lookup found.
fn utxo_by(file: &[u8], found: Option<Part>) -> Result<Option<WitnessUtxo>, PsbtError>
    ensures { result ≡ utxo_by file.now (Ok found) }
{
    let Some(p) = found else {
        return Ok(None);
    };
    utxo_at(p.start, bytes_at(file, p.start, p.len))
}

// The script of a witness UTXO, as the part of the file itself: empty for absence and refusal.
fn utxo_part(file: &[u8], utxo: Result<Option<WitnessUtxo>, PsbtError>) -> &[u8]
    ensures { result.now ≡ utxo_part file.now utxo }
{
    let Ok(Some(u)) = utxo else {
        return &file[..0];
    };
    bytes_at(file, u.start, u.len)
}

// The witness UTXO: its amount, and where its script stands.
pub fn get_witness_utxo(
    file: &[u8],
    pairs: &[u32],
    maps: &[u32],
    psbt: Psbt,
    i: u64,
) -> Result<Option<WitnessUtxo>, PsbtError>
    ensures { told_utxo result ≡ told_utxo (get_witness_utxo file.now
        (held_input file.now pairs.now maps.now psbt i)) }
{
    let found = typed::input::witness_utxo(file, pairs, maps, psbt, i)?;
    utxo_by(file, found)
}

// Its script, as the part of the file itself: empty for absence and refusal.
pub fn get_witness_utxo_script<'a>(
    file: &'a [u8],
    pairs: &[u32],
    maps: &[u32],
    psbt: Psbt,
    i: u64,
) -> &'a [u8]
    ensures { result.now ≡ utxo_part file.now
        (get_witness_utxo file.now (held_input file.now pairs.now maps.now psbt i)) }
{
    let utxo = get_witness_utxo(file, pairs, maps, psbt, i);
    utxo_part(file, utxo)
}
