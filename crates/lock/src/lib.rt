// The lock time of a transaction, and what decided it. Nothing else looks inside the rule.
#![tactic(auto)]

ghost use Rattle.std.specs.Prelude.{◌≡◌, ◌+◌};
ghost use Rattle.format.specs.Tables.{view};
ghost use Rattle.format.specs.Locks.{lock_of};
ghost use Rattle.format.specs.Transaction.{lock_decided};
ghost use Rattle.format.specs.Told.{told_lock};
ghost use Rattle.all_maps_fit.specs.Alls.{Whole, AllFit, in_at, ins_of};
ghost use Rattle.all_maps_fit.specs.Places.{sized_in, input_in};
ghost use Rattle.lock.specs.Asks.{wish_of, is_wrong, raised, topped_by, fault_by, seen, seen_in, no_asks, walk};
ghost use Rattle.lock.specs.Asks.{height_by, time_by, decide_kinds, decide_asks, locked_by};

use all_maps_fit::{InputAt, SizedAt};
use format::{Lock, Psbt, PsbtError, THRESHOLD};

// What an input asks for by one of its fields.
#[derive(Clone, Copy)]
pub enum Wish {
    Nothing,
    Wrong,
    Number(u32),
}

// The greatest number asked for and the input that asks for it, and the input that asks first.
#[derive(Clone, Copy)]
pub struct Most {
    pub first: u64,
    pub number: u32,
    pub input: u64,
}

// What inputs ask for: the first one with a field of a wrong length, and what is asked by each kind of lock.
#[derive(Clone, Copy)]
pub struct Asks {
    pub fault: Option<u64>,
    pub height: Option<Most>,
    pub time: Option<Most>,
}

// What an input asks for by the field that stands at a place.
fn wish_at(file: &[u8], x: SizedAt) -> Wish
    ensures { result ≡ wish_of (sized_in 4 file.now x) }
{
    match x {
        SizedAt::Missing => Wish::Nothing,
        SizedAt::Misfit => Wish::Wrong,
        SizedAt::At { start } => {
            Wish::Number(wire::u32_from_le_bytes(fitness::bytes_at(file, start, 4)))
        }
    }
}

// The field has a wrong length.
fn is_wrong(wish: Wish) -> bool
    ensures { result ≡ is_wrong wish }
{
    matches!(wish, Wish::Wrong)
}

// One more number that an input asks for: of equal ones the first stays.
fn raise(kind: Option<Most>, number: u32, input: u64) -> Option<Most>
    ensures { result ≡ raised kind number input }
{
    match kind {
        None => Some(Most {
            first: input,
            number,
            input,
        }),
        Some(most) if most.number < number => Some(Most {
            number,
            input,
            ..most
        }),
        Some(_) => kind,
    }
}

// The same by what an input asks for: nothing, or a number.
fn ask_more(kind: Option<Most>, wish: Wish, input: u64) -> Option<Most>
    ensures { result ≡ topped_by kind wish input }
{
    match wish {
        Wish::Nothing | Wish::Wrong => kind,
        Wish::Number(number) => raise(kind, number, input),
    }
}

// The first fault stays.
fn fault_at(fault: Option<u64>, height: Wish, time: Wish, input: u64) -> Option<u64>
    ensures { result ≡ fault_by fault height time input }
{
    if fault.is_none() && (is_wrong(height) || is_wrong(time)) {
        Some(input)
    } else {
        fault
    }
}

// What inputs ask for, with one input more that asks for a height and a time.
fn see(asks: Asks, input: u64, height: Wish, time: Wish) -> Asks
    ensures { result ≡ seen asks input height time }
{
    Asks {
        fault: fault_at(asks.fault, height, time, input),
        height: ask_more(asks.height, height, input),
        time: ask_more(asks.time, time, input),
    }
}

// The same, with an input whose fields stand at known places.
pub fn see_at(file: &[u8], asks: Asks, input: u64, at: InputAt) -> Asks
    ensures { result ≡ seen_in asks input (input_in file.now at) }
{
    see(
        asks,
        input,
        wish_at(file, at.height),
        wish_at(file, at.time),
    )
}

// The same, with input number `i`.
fn see_input(file: &[u8], pairs: &[u32], maps: &[u32], i: u64, asks: Asks) -> Asks
    requires { Whole file.now pairs.now maps.now (1 + i) }
    ensures { result ≡ seen_in asks i (in_at file.now pairs.now maps.now i) }
{
    let m = all_maps_fit::input_entry(maps, i);
    see_at(file, asks, i, all_maps_fit::input_at(file, pairs, m))
}

// What is asked for before the first input is seen: nothing.
pub fn no_asks() -> Asks
    ensures { result ≡ no_asks }
{
    Asks {
        fault: None,
        height: None,
        time: None,
    }
}

// What all inputs ask for.
fn all_asks(file: &[u8], pairs: &[u32], maps: &[u32], psbt: Psbt) -> Asks
    requires { AllFit file.now pairs.now maps.now psbt }
    ensures { result ≡ walk no_asks 0 (ins_of file.now pairs.now maps.now psbt) }
{
    let mut asks = no_asks();
    for i in 0..psbt.inputs {
        asks = see_input(file, pairs, maps, i, asks);
    }
    asks
}

// A greatest height must be a height.
fn height_lock(number: u32, input: u64) -> Lock
    ensures { Ok result ≡ height_by number input }
{
    if number < THRESHOLD {
        Lock::Height { number, input }
    } else {
        Lock::HeightTooGreat { number, input }
    }
}

// A greatest time must be a time.
fn time_lock(number: u32, input: u64) -> Lock
    ensures { Ok result ≡ time_by number input }
{
    if THRESHOLD <= number {
        Lock::Time { number, input }
    } else {
        Lock::TimeTooSmall { number, input }
    }
}

// Not both kinds; the greatest; the fallback only where nothing is asked for.
fn decide_kinds(fallback: u32, height: Option<Most>, time: Option<Most>) -> Lock
    ensures { Ok result ≡ decide_kinds fallback height time }
{
    match (height, time) {
        (None, None) => Lock::Fallback { number: fallback },
        (None, Some(t)) => time_lock(t.number, t.input),
        (Some(h), None) => height_lock(h.number, h.input),
        (Some(h), Some(t)) => Lock::BothKinds {
            height_input: h.first,
            time_input: t.first,
        },
    }
}

// The lock rule, over what the inputs ask for.
pub fn decide(fallback: Option<u32>, asks: Asks) -> Lock
    ensures { Ok result ≡ decide_asks fallback asks }
{
    match asks.fault {
        None => decide_kinds(fallback.unwrap_or(0), asks.height, asks.time),
        Some(input) => Lock::Malformed { input },
    }
}

// What decides the lock: a map that is unfit refuses first.
pub fn lock_decided(file: &[u8], pairs: &[u32], maps: &[u32], psbt: Psbt) -> Result<Lock, PsbtError>
    ensures { told_lock result ≡ told_lock (lock_decided (view file.now pairs.now maps.now psbt) psbt) }
{
    all_maps_fit::all_fit(file, pairs, maps, psbt)?;
    let asks = all_asks(file, pairs, maps, psbt);
    Ok(decide(psbt.fallback_locktime, asks))
}

// The lock time that was decided. What a rule forbids is refused.
pub fn lock_of(lock: Result<Lock, PsbtError>) -> Result<u32, PsbtError>
    ensures { locked_by result ≡ lock_of lock }
{
    let decided = lock?;
    match decided {
        Lock::Height { number, .. } | Lock::Time { number, .. } | Lock::Fallback { number } => {
            Ok(number)
        }
        Lock::BothKinds { .. }
        | Lock::HeightTooGreat { .. }
        | Lock::TimeTooSmall { .. }
        | Lock::Malformed { .. } => Err(PsbtError::BadValue),
    }
}
