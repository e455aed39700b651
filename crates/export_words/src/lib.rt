// Answers as words in a lent slice, and what a parse reported from its words, for callers from other languages.
#![tactic(auto)]

ghost use Rattle.format.specs.Told.{told, flag, maybe_value, told_looked, told_numbered, told_listing, told_nth};
ghost use Rattle.format.specs.Told.{told_utxo, told_lock, told_script, told_set, told_tx, told_parsed};
ghost use Rattle.std.specs.Prelude.{◌≡◌, get_or, IfOk, Ok, []};
ghost use Rattle.format.specs.Refusals.{number_of};
ghost use Rattle.export_words.specs.Puts.{Puts};
ghost use Rattle.format.specs.declared.Parsed.TheVariants.{Accepted};
ghost use Rattle.export_words.specs.Words.{answered, answered_with, exported, is_report, maybe_of, no_report, number_told, psbt_in, report_in, state_of};
ghost use Rattle.export_words.specs.Words.{word as Words·word, words_told};

use format::{
    Listed, Lock, PairEntry, Parsed, Part, Psbt, PsbtError, ScriptPlace, State, WitnessUtxo,
    Written,
};
use wire::signed;
use writer::bits_of;

// How many words an answer takes.
pub const ANSWER: usize = 8;

// The number of a slice that is too short for an answer.
pub const NO_ROOM: u64 = 25;

// The number of a lock time that the inputs' requests forbid.
const BAD_VALUE: u64 = 7;

// How many values an accepted parse reports: its first word.
const REPORT_VALUES: u64 = 7;

// The word of a value that is absent.
const NO_VALUE: u64 = u64::MAX;

// The words where nothing is told.
const NOTHING: [u64; 8] = [0, 0, 0, 0, 0, 0, 0, 0];

// How many numbers 32 bits have: of a word that stands for one of them the lowest 32 bits count.
const NUMBERS: u64 = 0x1_0000_0000;

// An answer's number and its words.
fn put(answer: &mut [u64], number: u64, words: [u64; 8]) -> u64
    ensures { exported result answer.new ≡ answered_with answer.old number words }
{
    if answer.len() < ANSWER {
        return NO_ROOM;
    }
    // Kept: no `copy_from_slice`, which the compiler doesn't see through: the words would stand in memory first, in each export.
    for k in 0..ANSWER {
        answer[k] = words[k];
    }
    number
}

// Word number `k`, or 0.
fn word(report: &[u64], k: usize) -> u64
    ensures { result ≡ get_or report.now k 0 }
{
    report.get(k).copied().unwrap_or(0)
}

// A number that may be absent, from its word.
fn maybe_of(w: u64) -> Option<u32>
    ensures { result ≡ maybe_of w }
{
    if w == NO_VALUE {
        None
    } else {
        Some((w % NUMBERS) as u32)
    }
}

// What a parse reported, from its words.
pub fn psbt_of(report: &[u64]) -> Psbt
    ensures { result ≡ psbt_in report.now }
{
    Psbt {
        tx_version: signed((word(report, 1) % NUMBERS) as u32),
        fallback_locktime: maybe_of(word(report, 2)),
        tx_modifiable: maybe_of(word(report, 3)),
        inputs: word(report, 4),
        outputs: word(report, 5),
    }
}

// Whether words are those of an accepted parse.
pub fn is_report(report: &[u64]) -> bool
    ensures { result ≡ is_report report.now }
{
    word(report, 0) == REPORT_VALUES
}

// What a parse reported, where the words are those of an accepted one.
pub fn report_of(report: &[u64]) -> Option<Psbt>
    ensures { result ≡ report_in report.now }
{
    if is_report(report) {
        Some(psbt_of(report))
    } else {
        None
    }
}

// A state by two numbers.
pub fn state_of(set: u64, written: u64) -> State
    ensures { result ≡ state_of set written }
{
    State {
        set: set != 0,
        written: written != 0,
    }
}

// A yes or no as a word.
fn bit(b: bool) -> u64
    ensures { result ≡ Words·word (flag b) }
{
    u64::from(b)
}

// A number that may be absent, as a word.
fn word_of(m: Option<u32>) -> u64
    ensures { result ≡ Words·word (maybe_value m) }
{
    m.map_or(NO_VALUE, |n| n as u64)
}

// A refusal's answer: its number, and no values.
fn put_refusal(answer: &mut [u64], error: PsbtError) -> u64
    ensures { exported result answer.new ≡ answered answer.old (told (number_of error) []) }
{
    put(answer, error.number() as u64, NOTHING)
}

// The answer of a call that is refused, or gives a value: 0 and the value's words.
fn put_answer<T, F: FnOnce(T) -> [u64; 8]>(
    answer: &mut [u64],
    o: Result<T, PsbtError>,
    words: F,
) -> u64
    requires { IfOk o (λ x. F.pre words x) }
    ensures { Puts o (λ x w. F.post words x w) answer.old (exported result answer.new) }
{
    match o {
        Err(e) => put_refusal(answer, e),
        Ok(x) => put(answer, 0, words(x)),
    }
}

// The answer of every call where the words are no report.
pub fn put_no_report(answer: &mut [u64]) -> u64
    ensures { exported result answer.new ≡ answered answer.old no_report }
{
    put_refusal(answer, PsbtError::BadIndex)
}

// The words of where a value stands, if there is one.
fn looked_words(found: Option<Part>) -> [u64; 8]
    ensures { result ≡ words_told (told_looked (Ok found)) }
{
    match found {
        None => NOTHING,
        Some(p) => [2, p.start as u64, p.len as u64, 0, 0, 0, 0, 0],
    }
}

// The answer of a lookup.
pub fn put_looked(answer: &mut [u64], o: Result<Option<Part>, PsbtError>) -> u64
    ensures { exported result answer.new ≡ answered answer.old (told_looked o) }
{
    put_answer(answer, o, looked_words)
}

// The words of a number, if there is one.
fn numbered_words(found: Option<u64>) -> [u64; 8]
    ensures { result ≡ words_told (told_numbered (Ok found)) }
{
    match found {
        None => NOTHING,
        Some(n) => [1, n, 0, 0, 0, 0, 0, 0],
    }
}

// The answer of a field that is a number.
pub fn put_numbered(answer: &mut [u64], o: Result<Option<u64>, PsbtError>) -> u64
    ensures { exported result answer.new ≡ answered answer.old (told_numbered o) }
{
    put_answer(answer, o, numbered_words)
}

// The words of a listing.
fn listing_words(l: Listed) -> [u64; 8]
    ensures { result ≡ words_told (told_listing (Ok l)) }
{
    [2, l.first as u64, l.count as u64, 0, 0, 0, 0, 0]
}

// The answer of a listing.
pub fn put_listing(answer: &mut [u64], o: Result<Listed, PsbtError>) -> u64
    ensures { exported result answer.new ≡ answered answer.old (told_listing o) }
{
    put_answer(answer, o, listing_words)
}

// The words of a pair.
fn nth_words(e: PairEntry) -> [u64; 8]
    ensures { result ≡ words_told (told_nth (Ok e)) }
{
    [
        4,
        e.key as u64,
        e.klen as u64,
        e.value as u64,
        e.vlen as u64,
        0,
        0,
        0,
    ]
}

// The answer of a pair by its number.
pub fn put_nth(answer: &mut [u64], o: Result<PairEntry, PsbtError>) -> u64
    ensures { exported result answer.new ≡ answered answer.old (told_nth o) }
{
    put_answer(answer, o, nth_words)
}

// The words of a spent output, if there is one.
fn utxo_words(found: Option<WitnessUtxo>) -> [u64; 8]
    ensures { result ≡ words_told (told_utxo (Ok found)) }
{
    match found {
        None => NOTHING,
        Some(u) => [3, u.amount, u.start as u64, u.len as u64, 0, 0, 0, 0],
    }
}

// The answer of a spent output, read.
pub fn put_utxo(answer: &mut [u64], o: Result<Option<WitnessUtxo>, PsbtError>) -> u64
    ensures { exported result answer.new ≡ answered answer.old (told_utxo o) }
{
    put_answer(answer, o, utxo_words)
}

// The words of what decided the lock: of a rule that refuses it which rule and which input.
fn lock_words(lock: Lock) -> [u64; 8]
    ensures { result ≡ words_told (told_lock (Ok lock)) }
{
    match lock {
        Lock::Height { number, input } => [3, 1, number as u64, input, 0, 0, 0, 0],
        Lock::Time { number, input } => [3, 2, number as u64, input, 0, 0, 0, 0],
        Lock::Fallback { number } => [2, 0, number as u64, 0, 0, 0, 0, 0],
        Lock::BothKinds {
            height_input,
            time_input,
        } => [3, 1, height_input, time_input, 0, 0, 0, 0],
        Lock::HeightTooGreat { number, input } => [3, 2, number as u64, input, 0, 0, 0, 0],
        Lock::TimeTooSmall { number, input } => [3, 3, number as u64, input, 0, 0, 0, 0],
        Lock::Malformed { input } => [2, 4, input, 0, 0, 0, 0, 0],
    }
}

// The number of what decided the lock: 7 where a rule refuses it.
fn lock_number(lock: Lock) -> u64
    ensures { result ≡ number_told (told_lock (Ok lock)) }
{
    match lock {
        Lock::Height { .. } | Lock::Time { .. } | Lock::Fallback { .. } => 0,
        _ => BAD_VALUE,
    }
}

// The answer of the lock time: a refusal by a rule tells which rule and which input.
pub fn put_lock(answer: &mut [u64], o: Result<Lock, PsbtError>) -> u64
    ensures { exported result answer.new ≡ answered answer.old (told_lock o) }
{
    match o {
        Err(e) => put_refusal(answer, e),
        Ok(lock) => put(answer, lock_number(lock), lock_words(lock)),
    }
}

// The words of where an output's script stands, if it has one: in the file, or in the table of scripts set.
fn script_words(found: Option<ScriptPlace>) -> [u64; 8]
    ensures { result ≡ words_told (told_script (Ok found)) }
{
    match found {
        None => NOTHING,
        Some(ScriptPlace::InFile { start, len }) => [3, 0, start as u64, len as u64, 0, 0, 0, 0],
        Some(ScriptPlace::InTable { start, len }) => [3, 1, start as u64, len as u64, 0, 0, 0, 0],
    }
}

// The answer of an output's script: whether it stands in the file or in the table of scripts set, and where.
pub fn put_script(answer: &mut [u64], o: Result<Option<ScriptPlace>, PsbtError>) -> u64
    ensures { exported result answer.new ≡ answered answer.old (told_script o) }
{
    put_answer(answer, o, script_words)
}

// The words of a state.
fn set_words(t: State) -> [u64; 8]
    ensures { result ≡ words_told (told_set (Ok t)) }
{
    [2, bit(t.set), bit(t.written), 0, 0, 0, 0, 0]
}

// The answer of setting scripts.
pub fn put_set(answer: &mut [u64], o: Result<State, PsbtError>) -> u64
    ensures { exported result answer.new ≡ answered answer.old (told_set o) }
{
    put_answer(answer, o, set_words)
}

// The words of a transaction that was written.
fn tx_words(w: Written) -> [u64; 8]
    ensures { result ≡ words_told (told_tx (Ok w)) }
{
    [
        3,
        w.len as u64,
        bit(w.state.set),
        bit(w.state.written),
        0,
        0,
        0,
        0,
    ]
}

// The answer of writing the transaction.
pub fn put_tx(answer: &mut [u64], o: Result<Written, PsbtError>) -> u64
    ensures { exported result answer.new ≡ answered answer.old (told_tx o) }
{
    put_answer(answer, o, tx_words)
}

// What an accepted parse reports.
fn put_accepted(answer: &mut [u64], psbt: Psbt, pairs: usize, maps: usize) -> u64
    ensures { exported result answer.new ≡ answered answer.old (told_parsed (Accepted psbt pairs maps)) }
{
    put(
        answer,
        0,
        [
            REPORT_VALUES,
            bits_of(psbt.tx_version),
            word_of(psbt.fallback_locktime),
            word_of(psbt.tx_modifiable),
            psbt.inputs,
            psbt.outputs,
            pairs as u64,
            maps as u64,
        ],
    )
}

// The answer of a parse.
pub fn put_parsed(answer: &mut [u64], o: Parsed) -> u64
    ensures { exported result answer.new ≡ answered answer.old (told_parsed o) }
{
    match o {
        Parsed::Accepted { psbt, pairs, maps } => put_accepted(answer, psbt, pairs, maps),
        Parsed::Refused { error, pairs, maps } => {
            put(
                answer,
                error.number() as u64,
                [2, pairs as u64, maps as u64, 0, 0, 0, 0, 0],
            )
        }
    }
}
