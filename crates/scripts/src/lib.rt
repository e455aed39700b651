// The script table: where an output's entry stands, and whether it is one that the setter writes.
#![tactic(auto)]

ghost use Rattle.std.specs.Prelude.{◌≡◌};
ghost use Rattle.format.specs.Scripts.{taproot};
ghost use Rattle.scripts.specs.Tables.{entry_at, blank, filled, fits_by};

// How many bytes an entry takes.
pub const ENTRY: usize = 35;

// How many bytes a taproot script has.
pub const SCRIPT_LEN: usize = 34;

// Entry number `i`, or as much of it as there is.
pub fn entry_at(scripts: &[u8], i: u64) -> &[u8]
    ensures { result.now ≡ entry_at scripts.now i }
{
    let whole = scripts.len() / ENTRY;
    if i < whole as u64 {
        let at = i as usize * ENTRY;
        return &scripts[at..at + ENTRY];
    }
    if i == whole as u64 {
        return &scripts[whole * ENTRY..];
    }
    &scripts[..0]
}

// A taproot script: 34 bytes that begin 51 20.
pub fn is_taproot(script: &[u8]) -> bool
    ensures { result ≡ taproot script.now }
{
    script.len() == SCRIPT_LEN && script[0] == 0x51 && script[1] == 0x20
}

// An entry without a script.
fn is_blank(entry: &[u8]) -> bool
    ensures { result ≡ blank entry.now }
{
    let zeros = [0u8; ENTRY];
    keys::compare(entry, &zeros).is_eq()
}

// An entry with a script that is set.
fn is_filled(entry: &[u8]) -> bool
    ensures { result ≡ filled entry.now }
{
    !entry.is_empty() && entry[0] == 1 && is_taproot(&entry[1..])
}

// An entry is one that the setter writes for an output with a script, or for one without.
pub fn entry_fits(has_script: bool, entry: &[u8]) -> bool
    ensures { result ≡ fits_by has_script entry.now }
{
    if has_script {
        is_blank(entry)
    } else {
        is_filled(entry)
    }
}
