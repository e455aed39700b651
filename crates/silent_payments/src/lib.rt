// Silent payments: what stands under a scan key, of the whole file and of an input.
#![tactic(auto)]

ghost use Rattle.std.specs.Prelude.{◌≡◌, ◌+◌, ◌≤◌};
ghost use Rattle.format.specs.Tables.{holds};
ghost use Rattle.format.specs.Fields.{scan_lookup};
ghost use Rattle.entries.specs.Words.{pair_count};
ghost use Rattle.fitness.specs.Fits.{entries_of};

use format::{MapEntry, PUBKEY_LEN, Part, PsbtError};
use lookup::Wanted;

pub mod global;
pub mod input;

// How many bytes a proof has.
const PROOF_LEN: usize = 64;

// A silent payment lookup asks a scan key, which is a public key.
fn scan_lookup(
    file: &[u8],
    pairs: &[u32],
    m: MapEntry,
    key_type: u8,
    width: usize,
    scan_key: &[u8],
) -> Result<Option<Part>, PsbtError>
    requires { m.first + m.count ≤ pair_count pairs.now }
    ensures { result ≡ scan_lookup key_type width file.now scan_key.now (holds (entries_of pairs.now m)) }
{
    let ok = scan_key.len() == PUBKEY_LEN;
    lookup::asked_in(
        file,
        pairs,
        m,
        ok,
        Wanted::Exactly(width),
        key_type,
        scan_key,
    )
}
