// The library for programs in C and Rust: every public call in numbers and slices (`include/fastpsbt.h`).
#![tactic(auto, using(crate::proofs::Calls::asks, crate::proofs::Calls::asks_in, crate::proofs::Calls::outs, crate::proofs::Calls::parses))]

ghost use Rattle.std.specs.Prelude.{◌≡◌};
ghost use Rattle.format.specs.Fields.{amount, final_scriptsig, final_scriptwitness, get_witness_utxo, global_proof, global_share, input_participants};
ghost use Rattle.format.specs.Fields.{input_proof, input_share, non_witness_utxo, out_redeem_script, out_witness_script, output_index, output_participants};
ghost use Rattle.format.specs.Fields.{partial_sig, participant, participant_count, previous_txid, pub_nonce, redeem_script, required_height_locktime};
ghost use Rattle.format.specs.Fields.{required_time_locktime, script, sequence, sighash_type, sp_tweak, sp_v0_info, sp_v0_label, witness_script};
ghost use Rattle.format.specs.Fields.{witness_utxo_def};
ghost use Rattle.format.specs.Lookups.{list, look, nth};
ghost use Rattle.format.specs.Parse.{parsed};
ghost use Rattle.format.specs.Scripts.{flat, set_scripts};
ghost use Rattle.format.specs.Tables.{held, held_input, held_output, view};
ghost use Rattle.format.specs.Told.{told_listing, told_lock, told_looked, told_nth, told_numbered, told_parse, told_script, told_set_out, told_tx_out};
ghost use Rattle.format.specs.Told.{told_utxo};
ghost use Rattle.format.specs.Transaction.{lock_decided, output_script_def, unsigned_tx_def};
ghost use Rattle.export_words.specs.Words.{exported, asked, asked_in_def, leaves, leaves_both, out_export, parse_export};

use export_words::{
    ANSWER, NO_ROOM, put_listing, put_lock, put_looked, put_no_report, put_nth, put_numbered,
    put_parsed, put_script, put_set, put_tx, put_utxo, report_of, state_of,
};

// Parses a file: four words for each pair go into `pairs`, two for each map into `maps`. It reports the global fields and how many entries
// are used; a refusal too reports these, and leaves the entries of pairs accepted and maps ended before it.
pub fn fastpsbt_parse(file: &[u8], pairs: &mut [u32], maps: &mut [u32], answer: &mut [u64]) -> u64
    ensures { leaves_both (exported result answer.new) pairs.new maps.new
        ≡ parse_export answer.old pairs.old
        maps.old (told_parse (parsed file.now pairs.old maps.old)) }
{
    if answer.len() < ANSWER {
        return NO_ROOM;
    }
    let o = fastpsbt::parse(file, pairs, maps);
    put_parsed(answer, o)
}

// What decides the lock time: the greatest height or time and the input that asks for it, the fallback, or the rule that refuses and
// the input at fault.
pub fn fastpsbt_lock_decided(
    file: &[u8],
    pairs: &[u32],
    maps: &[u32],
    report: &[u64],
    answer: &mut [u64],
) -> u64
    ensures { exported result answer.new
        ≡ asked report.now answer.old
        (λ s. told_lock (lock_decided (view file.now pairs.now maps.now s) s)) }
{
    let Some(psbt) = report_of(report) else {
        return put_no_report(answer);
    };
    let o = fastpsbt::lock_decided(file, pairs, maps, psbt);
    put_lock(answer, o)
}

// Sets scripts for the outputs that have none. `list` holds three numbers for each assignment: the output, and where its script starts
// in `buffer` and how long it is. `scripts` takes 35 bytes for each output.
pub fn fastpsbt_set_sp_output_scripts(
    file: &[u8],
    pairs: &[u32],
    maps: &[u32],
    report: &[u64],
    list: &[u64],
    buffer: &[u8],
    set: u64,
    written: u64,
    scripts: &mut [u8],
    answer: &mut [u64],
) -> u64
    ensures { leaves (exported result answer.new) scripts.new
        ≡ out_export set written report.now answer.old scripts.old
        (λ t s. told_set_out (set_scripts (view file.now pairs.now maps.now s) s
        (flat list.now) buffer.now t scripts.old)) }
{
    if answer.len() < ANSWER {
        return NO_ROOM;
    }
    let Some(psbt) = report_of(report) else {
        return put_no_report(answer);
    };
    let state = state_of(set, written);
    let o = fastpsbt::set_sp_output_scripts(file, pairs, maps, psbt, list, buffer, state, scripts);
    put_set(answer, o)
}

// Writes the unsigned transaction from the front of `out` on, with the scripts set in `scripts` where `state` says that they are. It
// answers the length and the new state; a refusal writes nothing.
pub fn fastpsbt_unsigned_tx(
    file: &[u8],
    pairs: &[u32],
    maps: &[u32],
    report: &[u64],
    set: u64,
    written: u64,
    scripts: &[u8],
    out: &mut [u8],
    answer: &mut [u64],
) -> u64
    ensures { leaves (exported result answer.new) out.new
        ≡ out_export set written report.now answer.old out.old
        (λ t s. told_tx_out (unsigned_tx_def (view file.now pairs.now maps.now s) s t
        scripts.now out.old)) }
{
    if answer.len() < ANSWER {
        return NO_ROOM;
    }
    let Some(psbt) = report_of(report) else {
        return put_no_report(answer);
    };
    let state = state_of(set, written);
    let o = fastpsbt::unsigned_tx(file, pairs, maps, psbt, state, scripts, out);
    put_tx(answer, o)
}

// Where the value of a key stands, by the key's type and data.
pub fn fastpsbt_map_get(
    file: &[u8],
    pairs: &[u32],
    maps: &[u32],
    report: &[u64],
    m: u64,
    key_type: u8,
    key_data: &[u8],
    answer: &mut [u64],
) -> u64
    ensures { exported result answer.new
        ≡ asked report.now answer.old
        (λ s. told_looked (look file.now key_type
        key_data.now (held file.now pairs.now maps.now s m))) }
{
    let Some(psbt) = report_of(report) else {
        return put_no_report(answer);
    };
    let o = fastpsbt::map::get(file, pairs, maps, psbt, m, key_type, key_data);
    put_looked(answer, o)
}

// The pairs of a type: the first one's number in the map, or where it would stand, and how many they are.
pub fn fastpsbt_map_list(
    file: &[u8],
    pairs: &[u32],
    maps: &[u32],
    report: &[u64],
    m: u64,
    key_type: u8,
    answer: &mut [u64],
) -> u64
    ensures { exported result answer.new
        ≡ asked report.now answer.old
        (λ s. told_listing (list file.now key_type (held file.now pairs.now maps.now s m))) }
{
    let Some(psbt) = report_of(report) else {
        return put_no_report(answer);
    };
    let o = fastpsbt::map::list(file, pairs, maps, psbt, m, key_type);
    put_listing(answer, o)
}

// Pair number `i` of a map: where its key and its value stand.
pub fn fastpsbt_map_nth(
    file: &[u8],
    pairs: &[u32],
    maps: &[u32],
    report: &[u64],
    m: u64,
    i: usize,
    answer: &mut [u64],
) -> u64
    ensures { exported result answer.new
        ≡ asked report.now answer.old
        (λ s. told_nth (nth i (held file.now pairs.now maps.now s m))) }
{
    let Some(psbt) = report_of(report) else {
        return put_no_report(answer);
    };
    let o = fastpsbt::map::nth(file, pairs, maps, psbt, m, i);
    put_nth(answer, o)
}

// The ECDH share of a scan key.
pub fn fastpsbt_global_get_sp_ecdh_share(
    file: &[u8],
    pairs: &[u32],
    maps: &[u32],
    report: &[u64],
    scan_key: &[u8],
    answer: &mut [u64],
) -> u64
    ensures { exported result answer.new
        ≡ asked report.now answer.old
        (λ s. told_looked (global_share file.now
        scan_key.now (held file.now pairs.now maps.now s 0))) }
{
    let Some(psbt) = report_of(report) else {
        return put_no_report(answer);
    };
    let o = fastpsbt::global::get_sp_ecdh_share(file, pairs, maps, psbt, scan_key);
    put_looked(answer, o)
}

// The DLEQ proof of a scan key.
pub fn fastpsbt_global_get_sp_dleq_proof(
    file: &[u8],
    pairs: &[u32],
    maps: &[u32],
    report: &[u64],
    scan_key: &[u8],
    answer: &mut [u64],
) -> u64
    ensures { exported result answer.new
        ≡ asked report.now answer.old
        (λ s. told_looked (global_proof file.now
        scan_key.now (held file.now pairs.now maps.now s 0))) }
{
    let Some(psbt) = report_of(report) else {
        return put_no_report(answer);
    };
    let o = fastpsbt::global::get_sp_dleq_proof(file, pairs, maps, psbt, scan_key);
    put_looked(answer, o)
}

// All shares.
pub fn fastpsbt_global_sp_ecdh_shares(
    file: &[u8],
    pairs: &[u32],
    maps: &[u32],
    report: &[u64],
    answer: &mut [u64],
) -> u64
    ensures { exported result answer.new
        ≡ asked report.now answer.old
        (λ s. told_listing (list file.now 0x07 (held file.now pairs.now maps.now s 0))) }
{
    let Some(psbt) = report_of(report) else {
        return put_no_report(answer);
    };
    let o = fastpsbt::global::sp_ecdh_shares(file, pairs, maps, psbt);
    put_listing(answer, o)
}

// All proofs.
pub fn fastpsbt_global_sp_dleq_proofs(
    file: &[u8],
    pairs: &[u32],
    maps: &[u32],
    report: &[u64],
    answer: &mut [u64],
) -> u64
    ensures { exported result answer.new
        ≡ asked report.now answer.old
        (λ s. told_listing (list file.now 0x08 (held file.now pairs.now maps.now s 0))) }
{
    let Some(psbt) = report_of(report) else {
        return put_no_report(answer);
    };
    let o = fastpsbt::global::sp_dleq_proofs(file, pairs, maps, psbt);
    put_listing(answer, o)
}

// The whole previous transaction, as its bytes.
pub fn fastpsbt_input_non_witness_utxo(
    file: &[u8],
    pairs: &[u32],
    maps: &[u32],
    report: &[u64],
    i: u64,
    answer: &mut [u64],
) -> u64
    ensures { exported result answer.new
        ≡ asked report.now answer.old
        (λ s. told_looked (non_witness_utxo file.now (held_input file.now pairs.now maps.now s i))) }
{
    let Some(psbt) = report_of(report) else {
        return put_no_report(answer);
    };
    let o = fastpsbt::input::non_witness_utxo(file, pairs, maps, psbt, i);
    put_looked(answer, o)
}

// The output that is spent, as its bytes; `get_witness_utxo` reads it.
pub fn fastpsbt_input_witness_utxo(
    file: &[u8],
    pairs: &[u32],
    maps: &[u32],
    report: &[u64],
    i: u64,
    answer: &mut [u64],
) -> u64
    ensures { exported result answer.new
        ≡ asked report.now answer.old
        (λ s. told_looked (witness_utxo_def file.now (held_input file.now pairs.now maps.now s i))) }
{
    let Some(psbt) = report_of(report) else {
        return put_no_report(answer);
    };
    let o = fastpsbt::input::witness_utxo(file, pairs, maps, psbt, i);
    put_looked(answer, o)
}

// The signature hash type.
pub fn fastpsbt_input_sighash_type(
    file: &[u8],
    pairs: &[u32],
    maps: &[u32],
    report: &[u64],
    i: u64,
    answer: &mut [u64],
) -> u64
    ensures { exported result answer.new
        ≡ asked report.now answer.old
        (λ s. told_numbered (sighash_type file.now (held_input file.now pairs.now maps.now s i))) }
{
    let Some(psbt) = report_of(report) else {
        return put_no_report(answer);
    };
    let o = fastpsbt::input::sighash_type(file, pairs, maps, psbt, i);
    put_numbered(answer, o)
}

// The redeem script.
pub fn fastpsbt_input_redeem_script(
    file: &[u8],
    pairs: &[u32],
    maps: &[u32],
    report: &[u64],
    i: u64,
    answer: &mut [u64],
) -> u64
    ensures { exported result answer.new
        ≡ asked report.now answer.old
        (λ s. told_looked (redeem_script file.now (held_input file.now pairs.now maps.now s i))) }
{
    let Some(psbt) = report_of(report) else {
        return put_no_report(answer);
    };
    let o = fastpsbt::input::redeem_script(file, pairs, maps, psbt, i);
    put_looked(answer, o)
}

// The witness script.
pub fn fastpsbt_input_witness_script(
    file: &[u8],
    pairs: &[u32],
    maps: &[u32],
    report: &[u64],
    i: u64,
    answer: &mut [u64],
) -> u64
    ensures { exported result answer.new
        ≡ asked report.now answer.old
        (λ s. told_looked (witness_script file.now (held_input file.now pairs.now maps.now s i))) }
{
    let Some(psbt) = report_of(report) else {
        return put_no_report(answer);
    };
    let o = fastpsbt::input::witness_script(file, pairs, maps, psbt, i);
    put_looked(answer, o)
}

// The final script.
pub fn fastpsbt_input_final_scriptsig(
    file: &[u8],
    pairs: &[u32],
    maps: &[u32],
    report: &[u64],
    i: u64,
    answer: &mut [u64],
) -> u64
    ensures { exported result answer.new
        ≡ asked report.now answer.old
        (λ s. told_looked (final_scriptsig file.now (held_input file.now pairs.now maps.now s i))) }
{
    let Some(psbt) = report_of(report) else {
        return put_no_report(answer);
    };
    let o = fastpsbt::input::final_scriptsig(file, pairs, maps, psbt, i);
    put_looked(answer, o)
}

// The final witness.
pub fn fastpsbt_input_final_scriptwitness(
    file: &[u8],
    pairs: &[u32],
    maps: &[u32],
    report: &[u64],
    i: u64,
    answer: &mut [u64],
) -> u64
    ensures { exported result answer.new
        ≡ asked report.now answer.old
        (λ s. told_looked (final_scriptwitness file.now (held_input file.now pairs.now maps.now s i))) }
{
    let Some(psbt) = report_of(report) else {
        return put_no_report(answer);
    };
    let o = fastpsbt::input::final_scriptwitness(file, pairs, maps, psbt, i);
    put_looked(answer, o)
}

// The txid of the previous transaction, 32 bytes.
pub fn fastpsbt_input_previous_txid(
    file: &[u8],
    pairs: &[u32],
    maps: &[u32],
    report: &[u64],
    i: u64,
    answer: &mut [u64],
) -> u64
    ensures { exported result answer.new
        ≡ asked report.now answer.old
        (λ s. told_looked (previous_txid file.now (held_input file.now pairs.now maps.now s i))) }
{
    let Some(psbt) = report_of(report) else {
        return put_no_report(answer);
    };
    let o = fastpsbt::input::previous_txid(file, pairs, maps, psbt, i);
    put_looked(answer, o)
}

// Which of its outputs is spent.
pub fn fastpsbt_input_output_index(
    file: &[u8],
    pairs: &[u32],
    maps: &[u32],
    report: &[u64],
    i: u64,
    answer: &mut [u64],
) -> u64
    ensures { exported result answer.new
        ≡ asked report.now answer.old
        (λ s. told_numbered (output_index file.now (held_input file.now pairs.now maps.now s i))) }
{
    let Some(psbt) = report_of(report) else {
        return put_no_report(answer);
    };
    let o = fastpsbt::input::output_index(file, pairs, maps, psbt, i);
    put_numbered(answer, o)
}

// The sequence number.
pub fn fastpsbt_input_sequence(
    file: &[u8],
    pairs: &[u32],
    maps: &[u32],
    report: &[u64],
    i: u64,
    answer: &mut [u64],
) -> u64
    ensures { exported result answer.new
        ≡ asked report.now answer.old
        (λ s. told_numbered (sequence file.now (held_input file.now pairs.now maps.now s i))) }
{
    let Some(psbt) = report_of(report) else {
        return put_no_report(answer);
    };
    let o = fastpsbt::input::sequence(file, pairs, maps, psbt, i);
    put_numbered(answer, o)
}

// The lock time that the input asks for, as a time.
pub fn fastpsbt_input_required_time_locktime(
    file: &[u8],
    pairs: &[u32],
    maps: &[u32],
    report: &[u64],
    i: u64,
    answer: &mut [u64],
) -> u64
    ensures { exported result answer.new
        ≡ asked report.now answer.old
        (λ s. told_numbered (required_time_locktime file.now (held_input file.now pairs.now maps.now s i))) }
{
    let Some(psbt) = report_of(report) else {
        return put_no_report(answer);
    };
    let o = fastpsbt::input::required_time_locktime(file, pairs, maps, psbt, i);
    put_numbered(answer, o)
}

// The lock time that the input asks for, as a block height.
pub fn fastpsbt_input_required_height_locktime(
    file: &[u8],
    pairs: &[u32],
    maps: &[u32],
    report: &[u64],
    i: u64,
    answer: &mut [u64],
) -> u64
    ensures { exported result answer.new
        ≡ asked report.now answer.old
        (λ s. told_numbered (required_height_locktime file.now (held_input file.now pairs.now maps.now s i))) }
{
    let Some(psbt) = report_of(report) else {
        return put_no_report(answer);
    };
    let o = fastpsbt::input::required_height_locktime(file, pairs, maps, psbt, i);
    put_numbered(answer, o)
}

// The silent payment tweak, 32 bytes.
pub fn fastpsbt_input_sp_tweak(
    file: &[u8],
    pairs: &[u32],
    maps: &[u32],
    report: &[u64],
    i: u64,
    answer: &mut [u64],
) -> u64
    ensures { exported result answer.new
        ≡ asked report.now answer.old
        (λ s. told_looked (sp_tweak file.now (held_input file.now pairs.now maps.now s i))) }
{
    let Some(psbt) = report_of(report) else {
        return put_no_report(answer);
    };
    let o = fastpsbt::input::sp_tweak(file, pairs, maps, psbt, i);
    put_looked(answer, o)
}

// The pairs of a type.
pub fn fastpsbt_input_iter_keys(
    file: &[u8],
    pairs: &[u32],
    maps: &[u32],
    report: &[u64],
    i: u64,
    key_type: u8,
    answer: &mut [u64],
) -> u64
    ensures { exported result answer.new
        ≡ asked report.now answer.old
        (λ s. told_listing (list file.now key_type (held_input file.now pairs.now maps.now s i))) }
{
    let Some(psbt) = report_of(report) else {
        return put_no_report(answer);
    };
    let o = fastpsbt::input::iter_keys(file, pairs, maps, psbt, i, key_type);
    put_listing(answer, o)
}

// The pairs of derivations.
pub fn fastpsbt_input_bip32_derivations(
    file: &[u8],
    pairs: &[u32],
    maps: &[u32],
    report: &[u64],
    i: u64,
    answer: &mut [u64],
) -> u64
    ensures { exported result answer.new
        ≡ asked report.now answer.old
        (λ s. told_listing (list file.now 0x06 (held_input file.now pairs.now maps.now s i))) }
{
    let Some(psbt) = report_of(report) else {
        return put_no_report(answer);
    };
    let o = fastpsbt::input::bip32_derivations(file, pairs, maps, psbt, i);
    put_listing(answer, o)
}

// The ECDH share of a scan key.
pub fn fastpsbt_input_get_sp_ecdh_share(
    file: &[u8],
    pairs: &[u32],
    maps: &[u32],
    report: &[u64],
    i: u64,
    scan_key: &[u8],
    answer: &mut [u64],
) -> u64
    ensures { exported result answer.new
        ≡ asked report.now answer.old
        (λ s. told_looked (input_share file.now
        scan_key.now (held_input file.now pairs.now maps.now s i))) }
{
    let Some(psbt) = report_of(report) else {
        return put_no_report(answer);
    };
    let o = fastpsbt::input::get_sp_ecdh_share(file, pairs, maps, psbt, i, scan_key);
    put_looked(answer, o)
}

// The DLEQ proof of a scan key.
pub fn fastpsbt_input_get_sp_dleq_proof(
    file: &[u8],
    pairs: &[u32],
    maps: &[u32],
    report: &[u64],
    i: u64,
    scan_key: &[u8],
    answer: &mut [u64],
) -> u64
    ensures { exported result answer.new
        ≡ asked report.now answer.old
        (λ s. told_looked (input_proof file.now
        scan_key.now (held_input file.now pairs.now maps.now s i))) }
{
    let Some(psbt) = report_of(report) else {
        return put_no_report(answer);
    };
    let o = fastpsbt::input::get_sp_dleq_proof(file, pairs, maps, psbt, i, scan_key);
    put_looked(answer, o)
}

// All shares.
pub fn fastpsbt_input_sp_ecdh_shares(
    file: &[u8],
    pairs: &[u32],
    maps: &[u32],
    report: &[u64],
    i: u64,
    answer: &mut [u64],
) -> u64
    ensures { exported result answer.new
        ≡ asked report.now answer.old
        (λ s. told_listing (list file.now 0x1d (held_input file.now pairs.now maps.now s i))) }
{
    let Some(psbt) = report_of(report) else {
        return put_no_report(answer);
    };
    let o = fastpsbt::input::sp_ecdh_shares(file, pairs, maps, psbt, i);
    put_listing(answer, o)
}

// All proofs.
pub fn fastpsbt_input_sp_dleq_proofs(
    file: &[u8],
    pairs: &[u32],
    maps: &[u32],
    report: &[u64],
    i: u64,
    answer: &mut [u64],
) -> u64
    ensures { exported result answer.new
        ≡ asked report.now answer.old
        (λ s. told_listing (list file.now 0x1e (held_input file.now pairs.now maps.now s i))) }
{
    let Some(psbt) = report_of(report) else {
        return put_no_report(answer);
    };
    let o = fastpsbt::input::sp_dleq_proofs(file, pairs, maps, psbt, i);
    put_listing(answer, o)
}

// The derivations of silent payment spend keys.
pub fn fastpsbt_input_sp_spend_bip32_derivations(
    file: &[u8],
    pairs: &[u32],
    maps: &[u32],
    report: &[u64],
    i: u64,
    answer: &mut [u64],
) -> u64
    ensures { exported result answer.new
        ≡ asked report.now answer.old
        (λ s. told_listing (list file.now 0x1f (held_input file.now pairs.now maps.now s i))) }
{
    let Some(psbt) = report_of(report) else {
        return put_no_report(answer);
    };
    let o = fastpsbt::input::sp_spend_bip32_derivations(file, pairs, maps, psbt, i);
    put_listing(answer, o)
}

// The MuSig2 public nonce of a participant under an aggregate key; `leaf` is a leaf hash, or empty.
pub fn fastpsbt_input_get_musig2_pub_nonce(
    file: &[u8],
    pairs: &[u32],
    maps: &[u32],
    report: &[u64],
    i: u64,
    participant: &[u8],
    aggregate: &[u8],
    leaf: &[u8],
    answer: &mut [u64],
) -> u64
    ensures { exported result answer.new
        ≡ asked report.now answer.old
        (λ s. told_looked (pub_nonce file.now participant.now
        aggregate.now leaf.now (held_input file.now pairs.now maps.now s i))) }
{
    let Some(psbt) = report_of(report) else {
        return put_no_report(answer);
    };
    let o = fastpsbt::input::get_musig2_pub_nonce(
        file,
        pairs,
        maps,
        psbt,
        i,
        participant,
        aggregate,
        leaf,
    );
    put_looked(answer, o)
}

// The partial signature, likewise.
pub fn fastpsbt_input_get_musig2_partial_sig(
    file: &[u8],
    pairs: &[u32],
    maps: &[u32],
    report: &[u64],
    i: u64,
    participant: &[u8],
    aggregate: &[u8],
    leaf: &[u8],
    answer: &mut [u64],
) -> u64
    ensures { exported result answer.new
        ≡ asked report.now answer.old
        (λ s. told_looked (partial_sig file.now participant.now
        aggregate.now leaf.now (held_input file.now pairs.now maps.now s i))) }
{
    let Some(psbt) = report_of(report) else {
        return put_no_report(answer);
    };
    let o = fastpsbt::input::get_musig2_partial_sig(
        file,
        pairs,
        maps,
        psbt,
        i,
        participant,
        aggregate,
        leaf,
    );
    put_looked(answer, o)
}

// The participants of an aggregate key, a list of 33-byte keys.
pub fn fastpsbt_input_get_musig2_participant_pubkeys(
    file: &[u8],
    pairs: &[u32],
    maps: &[u32],
    report: &[u64],
    i: u64,
    aggregate: &[u8],
    leaf: &[u8],
    answer: &mut [u64],
) -> u64
    ensures { exported result answer.new
        ≡ asked report.now answer.old
        (λ s. told_looked (input_participants file.now
        aggregate.now leaf.now (held_input file.now pairs.now maps.now s i))) }
{
    let Some(psbt) = report_of(report) else {
        return put_no_report(answer);
    };
    let o = fastpsbt::input::get_musig2_participant_pubkeys(
        file, pairs, maps, psbt, i, aggregate, leaf,
    );
    put_looked(answer, o)
}

// How many they are.
pub fn fastpsbt_input_get_musig2_participant_count(
    file: &[u8],
    pairs: &[u32],
    maps: &[u32],
    report: &[u64],
    i: u64,
    aggregate: &[u8],
    leaf: &[u8],
    answer: &mut [u64],
) -> u64
    ensures { exported result answer.new
        ≡ asked report.now answer.old
        (λ s. told_numbered (participant_count (input_participants file.now
        aggregate.now leaf.now (held_input file.now pairs.now maps.now s i)))) }
{
    let Some(psbt) = report_of(report) else {
        return put_no_report(answer);
    };
    let o = fastpsbt::input::get_musig2_participant_count(
        file, pairs, maps, psbt, i, aggregate, leaf,
    );
    put_numbered(answer, o)
}

// Participant number `n`.
pub fn fastpsbt_input_get_musig2_participant(
    file: &[u8],
    pairs: &[u32],
    maps: &[u32],
    report: &[u64],
    i: u64,
    aggregate: &[u8],
    leaf: &[u8],
    n: usize,
    answer: &mut [u64],
) -> u64
    ensures { exported result answer.new
        ≡ asked report.now answer.old
        (λ s. told_looked (participant n (input_participants file.now
        aggregate.now leaf.now (held_input file.now pairs.now maps.now s i)))) }
{
    let Some(psbt) = report_of(report) else {
        return put_no_report(answer);
    };
    let o = fastpsbt::input::get_musig2_participant(file, pairs, maps, psbt, i, aggregate, leaf, n);
    put_looked(answer, o)
}

// The output that is spent: its amount, and where its script stands.
pub fn fastpsbt_input_get_witness_utxo(
    file: &[u8],
    pairs: &[u32],
    maps: &[u32],
    report: &[u64],
    i: u64,
    answer: &mut [u64],
) -> u64
    ensures { exported result answer.new
        ≡ asked report.now answer.old
        (λ s. told_utxo (get_witness_utxo file.now (held_input file.now pairs.now maps.now s i))) }
{
    let Some(psbt) = report_of(report) else {
        return put_no_report(answer);
    };
    let o = fastpsbt::input::get_witness_utxo(file, pairs, maps, psbt, i);
    put_utxo(answer, o)
}

// The redeem script.
pub fn fastpsbt_output_redeem_script(
    file: &[u8],
    pairs: &[u32],
    maps: &[u32],
    report: &[u64],
    i: u64,
    answer: &mut [u64],
) -> u64
    ensures { exported result answer.new
        ≡ asked report.now answer.old
        (λ s. told_looked (out_redeem_script file.now (held_output file.now pairs.now maps.now s i))) }
{
    let Some(psbt) = report_of(report) else {
        return put_no_report(answer);
    };
    let o = fastpsbt::output::redeem_script(file, pairs, maps, psbt, i);
    put_looked(answer, o)
}

// The witness script.
pub fn fastpsbt_output_witness_script(
    file: &[u8],
    pairs: &[u32],
    maps: &[u32],
    report: &[u64],
    i: u64,
    answer: &mut [u64],
) -> u64
    ensures { exported result answer.new
        ≡ asked report.now answer.old
        (λ s. told_looked (out_witness_script file.now (held_output file.now pairs.now maps.now s i))) }
{
    let Some(psbt) = report_of(report) else {
        return put_no_report(answer);
    };
    let o = fastpsbt::output::witness_script(file, pairs, maps, psbt, i);
    put_looked(answer, o)
}

// The amount.
pub fn fastpsbt_output_amount(
    file: &[u8],
    pairs: &[u32],
    maps: &[u32],
    report: &[u64],
    i: u64,
    answer: &mut [u64],
) -> u64
    ensures { exported result answer.new
        ≡ asked report.now answer.old
        (λ s. told_numbered (amount file.now (held_output file.now pairs.now maps.now s i))) }
{
    let Some(psbt) = report_of(report) else {
        return put_no_report(answer);
    };
    let o = fastpsbt::output::amount(file, pairs, maps, psbt, i);
    put_numbered(answer, o)
}

// The script.
pub fn fastpsbt_output_script(
    file: &[u8],
    pairs: &[u32],
    maps: &[u32],
    report: &[u64],
    i: u64,
    answer: &mut [u64],
) -> u64
    ensures { exported result answer.new
        ≡ asked report.now answer.old
        (λ s. told_looked (script file.now (held_output file.now pairs.now maps.now s i))) }
{
    let Some(psbt) = report_of(report) else {
        return put_no_report(answer);
    };
    let o = fastpsbt::output::script(file, pairs, maps, psbt, i);
    put_looked(answer, o)
}

// The silent payment code, 66 bytes.
pub fn fastpsbt_output_sp_v0_info(
    file: &[u8],
    pairs: &[u32],
    maps: &[u32],
    report: &[u64],
    i: u64,
    answer: &mut [u64],
) -> u64
    ensures { exported result answer.new
        ≡ asked report.now answer.old
        (λ s. told_looked (sp_v0_info file.now (held_output file.now pairs.now maps.now s i))) }
{
    let Some(psbt) = report_of(report) else {
        return put_no_report(answer);
    };
    let o = fastpsbt::output::sp_v0_info(file, pairs, maps, psbt, i);
    put_looked(answer, o)
}

// Its label.
pub fn fastpsbt_output_sp_v0_label(
    file: &[u8],
    pairs: &[u32],
    maps: &[u32],
    report: &[u64],
    i: u64,
    answer: &mut [u64],
) -> u64
    ensures { exported result answer.new
        ≡ asked report.now answer.old
        (λ s. told_numbered (sp_v0_label file.now (held_output file.now pairs.now maps.now s i))) }
{
    let Some(psbt) = report_of(report) else {
        return put_no_report(answer);
    };
    let o = fastpsbt::output::sp_v0_label(file, pairs, maps, psbt, i);
    put_numbered(answer, o)
}

// The pairs of a type.
pub fn fastpsbt_output_iter_keys(
    file: &[u8],
    pairs: &[u32],
    maps: &[u32],
    report: &[u64],
    i: u64,
    key_type: u8,
    answer: &mut [u64],
) -> u64
    ensures { exported result answer.new
        ≡ asked report.now answer.old
        (λ s. told_listing (list file.now key_type (held_output file.now pairs.now maps.now s i))) }
{
    let Some(psbt) = report_of(report) else {
        return put_no_report(answer);
    };
    let o = fastpsbt::output::iter_keys(file, pairs, maps, psbt, i, key_type);
    put_listing(answer, o)
}

// The pairs of derivations.
pub fn fastpsbt_output_bip32_derivations(
    file: &[u8],
    pairs: &[u32],
    maps: &[u32],
    report: &[u64],
    i: u64,
    answer: &mut [u64],
) -> u64
    ensures { exported result answer.new
        ≡ asked report.now answer.old
        (λ s. told_listing (list file.now 0x02 (held_output file.now pairs.now maps.now s i))) }
{
    let Some(psbt) = report_of(report) else {
        return put_no_report(answer);
    };
    let o = fastpsbt::output::bip32_derivations(file, pairs, maps, psbt, i);
    put_listing(answer, o)
}

// The participants of an aggregate key, a list of 33-byte keys.
pub fn fastpsbt_output_get_musig2_participant_pubkeys(
    file: &[u8],
    pairs: &[u32],
    maps: &[u32],
    report: &[u64],
    i: u64,
    aggregate: &[u8],
    answer: &mut [u64],
) -> u64
    ensures { exported result answer.new
        ≡ asked report.now answer.old
        (λ s. told_looked (output_participants file.now
        aggregate.now (held_output file.now pairs.now maps.now s i))) }
{
    let Some(psbt) = report_of(report) else {
        return put_no_report(answer);
    };
    let o = fastpsbt::output::get_musig2_participant_pubkeys(file, pairs, maps, psbt, i, aggregate);
    put_looked(answer, o)
}

// How many they are.
pub fn fastpsbt_output_get_musig2_participant_count(
    file: &[u8],
    pairs: &[u32],
    maps: &[u32],
    report: &[u64],
    i: u64,
    aggregate: &[u8],
    answer: &mut [u64],
) -> u64
    ensures { exported result answer.new
        ≡ asked report.now answer.old
        (λ s. told_numbered (participant_count (output_participants file.now
        aggregate.now (held_output file.now pairs.now maps.now s i)))) }
{
    let Some(psbt) = report_of(report) else {
        return put_no_report(answer);
    };
    let o = fastpsbt::output::get_musig2_participant_count(file, pairs, maps, psbt, i, aggregate);
    put_numbered(answer, o)
}

// Participant number `n`.
pub fn fastpsbt_output_get_musig2_participant(
    file: &[u8],
    pairs: &[u32],
    maps: &[u32],
    report: &[u64],
    i: u64,
    aggregate: &[u8],
    n: usize,
    answer: &mut [u64],
) -> u64
    ensures { exported result answer.new
        ≡ asked report.now answer.old
        (λ s. told_looked (participant n (output_participants file.now
        aggregate.now (held_output file.now pairs.now maps.now s i)))) }
{
    let Some(psbt) = report_of(report) else {
        return put_no_report(answer);
    };
    let o = fastpsbt::output::get_musig2_participant(file, pairs, maps, psbt, i, aggregate, n);
    put_looked(answer, o)
}

// Where the script of an output stands: in the file, or in the script table once scripts are set.
pub fn fastpsbt_output_output_script(
    file: &[u8],
    pairs: &[u32],
    maps: &[u32],
    report: &[u64],
    set: u64,
    written: u64,
    scripts: &[u8],
    i: u64,
    answer: &mut [u64],
) -> u64
    ensures { exported result answer.new
        ≡ asked_in_def set written report.now answer.old
        (λ t s. told_script (output_script_def file.now t
        scripts.now i (held_output file.now pairs.now maps.now s i))) }
{
    let Some(psbt) = report_of(report) else {
        return put_no_report(answer);
    };
    let state = state_of(set, written);
    let o = fastpsbt::output::output_script(file, pairs, maps, psbt, state, scripts, i);
    put_script(answer, o)
}
