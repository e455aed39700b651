// The calls by their numbers: how one is read, and what it asks of the functions that firmware calls.
ghost use Rattle.std.specs.Prelude.{◌<◌};

use crate::memory::{part, store_numbers};
use export_words::{psbt_of, state_of};
use format::{Assignment, PsbtError};
use wire::Cursor;

// How many calls there are.
const CALLS: u8 = 55;

// How many arguments a call has at most.
const MOST: usize = 8;

// A call's number, and where the next one begins. The arguments are read beside it.
#[derive(Clone, Copy)]
pub struct Call {
    pub number: u8,
    pub next: usize,
}

// Reads arguments, and answers the place behind them.
fn read_args(
    body: &[u8],
    at: usize,
    count: usize,
    args: &mut [u64; 8],
) -> Result<usize, PsbtError> {
    let mut cursor = Cursor::new(at);
    for arg in args.iter_mut().take(count) {
        (*arg, cursor) = cursor.read_compact_size(body)?;
    }
    Ok(cursor.pos)
}

// Reads a call: none where the body ends before it does, its number is unknown or it has too many arguments.
pub fn read_call(body: &[u8], at: usize, args: &mut [u64; 8]) -> Option<Call> {
    if body.len() < 2 || body.len() - 2 < at {
        return None;
    }
    let number = body[at];
    let count = usize::from(body[at + 1]);
    if CALLS <= number || MOST < count {
        return None;
    }
    let next = read_args(body, at + 2, count, args).ok()?;
    Some(Call { number, next })
}

// A part of the buffer.
fn data(buffer: &[u8], start: u64, len: u64) -> &[u8] {
    part(buffer, start as usize, len as usize)
}

// A key's type.
fn type_of(x: u64) -> u8 {
    (x % 256) as u8
}

// The fields of an output, and what is left of an input's.
fn ask_output(
    call: u8,
    file: &[u8],
    pairs: &[u32],
    maps: &[u32],
    report: &[u64],
    i: u64,
    answer: &mut [u64; 8],
) -> u64 {
    match call {
        25 => exports::fastpsbt_input_bip32_derivations(file, pairs, maps, report, i, answer),
        28 => exports::fastpsbt_input_sp_ecdh_shares(file, pairs, maps, report, i, answer),
        29 => exports::fastpsbt_input_sp_dleq_proofs(file, pairs, maps, report, i, answer),
        30 => exports::fastpsbt_input_sp_spend_bip32_derivations(
            file, pairs, maps, report, i, answer,
        ),
        36 => exports::fastpsbt_input_get_witness_utxo(file, pairs, maps, report, i, answer),
        37 => exports::fastpsbt_output_redeem_script(file, pairs, maps, report, i, answer),
        38 => exports::fastpsbt_output_witness_script(file, pairs, maps, report, i, answer),
        39 => exports::fastpsbt_output_amount(file, pairs, maps, report, i, answer),
        40 => exports::fastpsbt_output_script(file, pairs, maps, report, i, answer),
        41 => exports::fastpsbt_output_sp_v0_info(file, pairs, maps, report, i, answer),
        42 => exports::fastpsbt_output_sp_v0_label(file, pairs, maps, report, i, answer),
        44 => exports::fastpsbt_output_bip32_derivations(file, pairs, maps, report, i, answer),
        _ => 0,
    }
}

// The fields of an input.
fn ask_input(
    call: u8,
    file: &[u8],
    pairs: &[u32],
    maps: &[u32],
    report: &[u64],
    i: u64,
    answer: &mut [u64; 8],
) -> u64 {
    match call {
        11 => exports::fastpsbt_input_non_witness_utxo(file, pairs, maps, report, i, answer),
        12 => exports::fastpsbt_input_witness_utxo(file, pairs, maps, report, i, answer),
        13 => exports::fastpsbt_input_sighash_type(file, pairs, maps, report, i, answer),
        14 => exports::fastpsbt_input_redeem_script(file, pairs, maps, report, i, answer),
        15 => exports::fastpsbt_input_witness_script(file, pairs, maps, report, i, answer),
        16 => exports::fastpsbt_input_final_scriptsig(file, pairs, maps, report, i, answer),
        17 => exports::fastpsbt_input_final_scriptwitness(file, pairs, maps, report, i, answer),
        18 => exports::fastpsbt_input_previous_txid(file, pairs, maps, report, i, answer),
        19 => exports::fastpsbt_input_output_index(file, pairs, maps, report, i, answer),
        20 => exports::fastpsbt_input_sequence(file, pairs, maps, report, i, answer),
        21 => exports::fastpsbt_input_required_time_locktime(file, pairs, maps, report, i, answer),
        22 => exports::fastpsbt_input_required_height_locktime(
            file, pairs, maps, report, i, answer,
        ),
        23 => exports::fastpsbt_input_sp_tweak(file, pairs, maps, report, i, answer),
        _ => ask_output(call, file, pairs, maps, report, i, answer),
    }
}

// What three keys find in an input.
fn ask_signer(
    call: u8,
    file: &[u8],
    pairs: &[u32],
    maps: &[u32],
    report: &[u64],
    buffer: &[u8],
    args: &[u64; 8],
    answer: &mut [u64; 8],
) -> u64 {
    let i = args[0];
    let a = data(buffer, args[1], args[2]);
    let b = data(buffer, args[3], args[4]);
    let c = data(buffer, args[5], args[6]);
    match call {
        31 => exports::fastpsbt_input_get_musig2_pub_nonce(
            file, pairs, maps, report, i, a, b, c, answer,
        ),
        32 => exports::fastpsbt_input_get_musig2_partial_sig(
            file, pairs, maps, report, i, a, b, c, answer,
        ),
        33 => exports::fastpsbt_input_get_musig2_participant_pubkeys(
            file, pairs, maps, report, i, a, b, answer,
        ),
        34 => exports::fastpsbt_input_get_musig2_participant_count(
            file, pairs, maps, report, i, a, b, answer,
        ),
        35 => exports::fastpsbt_input_get_musig2_participant(
            file,
            pairs,
            maps,
            report,
            i,
            a,
            b,
            args[5] as usize,
            answer,
        ),
        _ => ask_input(call, file, pairs, maps, report, i, answer),
    }
}

// What one key finds.
fn ask_key(
    call: u8,
    file: &[u8],
    pairs: &[u32],
    maps: &[u32],
    report: &[u64],
    buffer: &[u8],
    args: &[u64; 8],
    answer: &mut [u64; 8],
) -> u64 {
    let i = args[0];
    let key = data(buffer, i, args[1]);
    let a = data(buffer, args[1], args[2]);
    match call {
        7 => exports::fastpsbt_global_get_sp_ecdh_share(file, pairs, maps, report, key, answer),
        8 => exports::fastpsbt_global_get_sp_dleq_proof(file, pairs, maps, report, key, answer),
        26 => exports::fastpsbt_input_get_sp_ecdh_share(file, pairs, maps, report, i, a, answer),
        27 => exports::fastpsbt_input_get_sp_dleq_proof(file, pairs, maps, report, i, a, answer),
        45 => exports::fastpsbt_output_get_musig2_participant_pubkeys(
            file, pairs, maps, report, i, a, answer,
        ),
        46 => exports::fastpsbt_output_get_musig2_participant_count(
            file, pairs, maps, report, i, a, answer,
        ),
        47 => exports::fastpsbt_output_get_musig2_participant(
            file,
            pairs,
            maps,
            report,
            i,
            a,
            args[3] as usize,
            answer,
        ),
        _ => ask_signer(call, file, pairs, maps, report, buffer, args, answer),
    }
}

// Any call that writes no memory: the whole file, maps by their numbers and their keys' types, and an output's script.
pub fn ask_map(
    call: u8,
    file: &[u8],
    pairs: &[u32],
    maps: &[u32],
    report: &[u64],
    buffer: &[u8],
    set: u64,
    written: u64,
    scripts: &[u8],
    args: &[u64; 8],
    answer: &mut [u64; 8],
) -> u64 {
    let m = args[0];
    let t = type_of(args[1]);
    match call {
        1 => exports::fastpsbt_lock_decided(file, pairs, maps, report, answer),
        4 => exports::fastpsbt_map_get(
            file,
            pairs,
            maps,
            report,
            m,
            t,
            data(buffer, args[2], args[3]),
            answer,
        ),
        5 => exports::fastpsbt_map_list(file, pairs, maps, report, m, t, answer),
        6 => exports::fastpsbt_map_nth(file, pairs, maps, report, m, args[1] as usize, answer),
        9 => exports::fastpsbt_global_sp_ecdh_shares(file, pairs, maps, report, answer),
        10 => exports::fastpsbt_global_sp_dleq_proofs(file, pairs, maps, report, answer),
        24 => exports::fastpsbt_input_iter_keys(file, pairs, maps, report, m, t, answer),
        43 => exports::fastpsbt_output_iter_keys(file, pairs, maps, report, m, t, answer),
        48 => exports::fastpsbt_output_output_script(
            file, pairs, maps, report, set, written, scripts, m, answer,
        ),
        _ => ask_key(call, file, pairs, maps, report, buffer, args, answer),
    }
}

// Parses, in the first cells of the tables.
pub fn parse(
    file: &[u8],
    pairs: &mut [u32],
    pair_room: usize,
    maps: &mut [u32],
    map_room: usize,
    answer: &mut [u64; 8],
) -> u64 {
    let p = pair_room.min(pairs.len());
    let m = map_room.min(maps.len());
    exports::fastpsbt_parse(file, &mut pairs[..p], &mut maps[..m], answer)
}

// Writes the transaction into the first bytes of a memory.
pub fn write_tx(
    file: &[u8],
    pairs: &[u32],
    maps: &[u32],
    report: &[u64],
    set: u64,
    written: u64,
    scripts: &[u8],
    out: &mut [u8],
    room: usize,
    answer: &mut [u64; 8],
) -> u64 {
    let o = room.min(out.len());
    exports::fastpsbt_unsigned_tx(
        file,
        pairs,
        maps,
        report,
        set,
        written,
        scripts,
        &mut out[..o],
        answer,
    )
}

// A number of a list, 0 past its end.
fn number_in(list: &[u64], i: usize) -> u64 {
    if i < list.len() { list[i] } else { 0 }
}

// The assignment whose three numbers begin at `at`.
fn assignment(list: &[u64], at: usize) -> Assignment
    requires { at < 8 }
{
    Assignment {
        output: number_in(list, at),
        start: number_in(list, at + 1),
        len: number_in(list, at + 2),
    }
}

// Sets scripts by either setter: the one over records is handed the first two assignments.
fn set_by(
    call: u8,
    file: &[u8],
    pairs: &[u32],
    maps: &[u32],
    report: &[u64],
    list: &[u64],
    buffer: &[u8],
    set: u64,
    written: u64,
    scripts: &mut [u8],
    answer: &mut [u64; 8],
) -> u64 {
    if call == 2 {
        return exports::fastpsbt_set_sp_output_scripts(
            file, pairs, maps, report, list, buffer, set, written, scripts, answer,
        );
    }
    let two = [assignment(list, 0), assignment(list, 3)];
    let state = state_of(set, written);
    let o = struct_setter::set_two(
        file,
        pairs,
        maps,
        psbt_of(report),
        two,
        buffer,
        state,
        scripts,
    );
    export_words::put_set(answer, o)
}

// The same in the first bytes of a memory, with the numbers of a list.
pub fn set_scripts(
    call: u8,
    file: &[u8],
    pairs: &[u32],
    maps: &[u32],
    report: &[u64],
    numbers: &[u8],
    buffer: &[u8],
    set: u64,
    written: u64,
    scripts: &mut [u8],
    room: usize,
    answer: &mut [u64; 8],
) -> u64 {
    let mut list = [0u64; 1542];
    store_numbers(&mut list, numbers);
    let l = (numbers.len() / 8).min(list.len());
    let s = room.min(scripts.len());
    set_by(
        call,
        file,
        pairs,
        maps,
        report,
        &list[..l],
        buffer,
        set,
        written,
        &mut scripts[..s],
        answer,
    )
}

// The part that a call hands back.
pub fn part_asked<'a>(
    call: u8,
    file: &'a [u8],
    pairs: &[u32],
    maps: &[u32],
    report: &[u64; 8],
    buffer: &[u8],
    set: u64,
    written: u64,
    scripts: &'a [u8],
    args: &[u64; 8],
) -> &'a [u8] {
    let psbt = psbt_of(report);
    let m = args[0];
    let i = args[1] as usize;
    match call {
        49 => fastpsbt::map::get_part(
            file,
            pairs,
            maps,
            psbt,
            m,
            type_of(args[1]),
            data(buffer, args[2], args[3]),
        ),
        50 => fastpsbt::map::nth_key(file, pairs, maps, psbt, m, i),
        51 => fastpsbt::map::nth_value(file, pairs, maps, psbt, m, i),
        52 => fastpsbt::input::get_witness_utxo_script(file, pairs, maps, psbt, m),
        _ => fastpsbt::output::output_script_part(
            file,
            pairs,
            maps,
            psbt,
            state_of(set, written),
            scripts,
            m,
        ),
    }
}
