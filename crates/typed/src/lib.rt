// Typed fields of inputs and outputs: thin calls over the lookup of a part and of a number.
// Kept: each field has a function of its own, two lines over `part_field` or `number_field`: the documents name each with its promise.
#![tactic(auto)]

ghost use Rattle.std.specs.Prelude.{◌≡◌, ◌+◌, ◌≤◌};
ghost use Rattle.format.specs.Tables.{holds};
ghost use Rattle.format.specs.Fields.{part_field_def, number_field};
ghost use Rattle.entries.specs.Words.{pair_count};
ghost use Rattle.fitness.specs.Fits.{entries_of};
ghost use Rattle.lookup.specs.Finds.{length_of};

use format::{MapEntry, Part, PsbtError};
use lookup::Wanted;

pub mod input;
pub mod output;

// The place of the field of a type without key data.
fn part_field(
    file: &[u8],
    pairs: &[u32],
    m: MapEntry,
    key_type: u8,
    wanted: Wanted,
) -> Result<Option<Part>, PsbtError>
    requires { m.first + m.count ≤ pair_count pairs.now }
    ensures { result ≡ part_field_def key_type (length_of wanted) file.now (holds (entries_of pairs.now m)) }
{
    lookup::asked_in(file, pairs, m, true, wanted, key_type, &file[..0])
}

// Its number of `width` bytes.
fn number_field(
    file: &[u8],
    pairs: &[u32],
    m: MapEntry,
    key_type: u8,
    width: usize,
) -> Result<Option<u64>, PsbtError>
    requires within { m.first + m.count ≤ pair_count pairs.now }
    requires short { width ≤ 8 }
    ensures { result ≡ number_field key_type width file.now (holds (entries_of pairs.now m)) }
{
    let looked = part_field(file, pairs, m, key_type, Wanted::Exactly(width));
    lookup::number_at(file, looked)
}
