// Whether the network heeds the lock that was decided, as a line of text.
#![tactic(auto)]

ghost use Rattle.std.specs.Prelude.{◌≡◌};
ghost use Rattle.format.specs.Locks.{lock_of};
ghost use Rattle.text.specs.Spots.{spot, lay};
ghost use Rattle.heed_lines.specs.Heeds.{is_final, heed_of, heed_text, number_decided, heed_line};

use format::{Lock, Psbt, PsbtError};
use text::{put, put_decimal};
use typed::input::sequence;

// What the network makes of a lock: it ignores it, or the first input that isn't final has it heeded.
#[derive(Clone, Copy)]
pub enum Heed {
    Ignored,
    By(u64),
}

// The sequence that makes an input final.
const FINAL: u64 = 0xffff_ffff;

// An input with this sequence is final. One that couldn't be read counts as final.
fn is_final(sequence: Result<Option<u64>, PsbtError>) -> bool
    ensures { result ≡ is_final sequence }
{
    match sequence {
        Ok(Some(n)) => n == FINAL,
        Ok(None) | Err(_) => true,
    }
}

// What the network makes of a lock of these inputs.
pub fn heed_of(file: &[u8], pairs: &[u32], maps: &[u32], psbt: Psbt) -> Heed
    ensures { result ≡ heed_of file.now pairs.now maps.now psbt }
{
    for i in 0..psbt.inputs {
        if !is_final(sequence(file, pairs, maps, psbt, i)) {
            return Heed::By(i);
        }
    }
    Heed::Ignored
}

// The line of what the network makes of a lock.
fn put_heed_text(out: &mut [u8], at: usize, heed: Heed) -> usize
    ensures { spot result out.new ≡ lay (spot at out.old) (heed_text heed) }
{
    match heed {
        Heed::Ignored => put(
            out,
            at,
            b"the network ignores this lock, the transaction may be spent at once: no input has a sequence below ffffffff\n",
        ),
        Heed::By(i) => {
            let to = put(out, at, b"the network heeds this lock: input ");
            let to = put_decimal(out, to, i);
            put(out, to, b" has a sequence below ffffffff\n")
        }
    }
}

// The lock time that was decided, 0 where it was refused.
fn number_decided(lock: Result<Lock, PsbtError>) -> u32
    ensures { result ≡ number_decided (lock_of lock) }
{
    let Ok(decided) = lock else {
        return 0;
    };
    match decided {
        Lock::Height { number, .. } | Lock::Time { number, .. } | Lock::Fallback { number } =>
            number,
        _ => 0,
    }
}

// The line of a lock other than 0; nothing for 0 and for a lock that was refused.
pub fn put_heed(out: &mut [u8], at: usize, lock: Result<Lock, PsbtError>, heed: Heed) -> usize
    ensures { spot result out.new ≡ lay (spot at out.old) (heed_line lock heed) }
{
    if number_decided(lock) == 0 {
        return at;
    }
    put_heed_text(out, at, heed)
}
