// The field rule of a pair, judged by its lengths and the front of its value.
#![tactic(auto)]

ghost use Rattle.std.specs.Prelude.{◌≡◌};
ghost use Rattle.format.specs.Compact.{size, count_by_def};
ghost use Rattle.format.specs.Rules.{kind_of, value_fits, is_row, row_rule, sizes_in, sizes, count_rule};
ghost use Rattle.fields.specs.Rows.{is_kept, both_fit, has_type};
ghost use Rattle.fields.specs.Fronts.{is_count, bare_rule_by, is_bare, rule_by};

use format::{
    CompactSize, MapKind, PSBT_GLOBAL_FALLBACK_LOCKTIME, PSBT_GLOBAL_INPUT_COUNT,
    PSBT_GLOBAL_OUTPUT_COUNT, PSBT_GLOBAL_SP_DLEQ, PSBT_GLOBAL_SP_ECDH_SHARE,
    PSBT_GLOBAL_TX_MODIFIABLE, PSBT_GLOBAL_TX_VERSION, PSBT_GLOBAL_UNSIGNED_TX,
    PSBT_GLOBAL_VERSION, PSBT_IN_OUTPUT_INDEX, PSBT_IN_PREVIOUS_TXID,
    PSBT_IN_REQUIRED_HEIGHT_LOCKTIME, PSBT_IN_REQUIRED_TIME_LOCKTIME, PSBT_IN_SEQUENCE,
    PSBT_IN_SIGHASH_TYPE, PSBT_IN_SP_DLEQ, PSBT_IN_SP_ECDH_SHARE,
    PSBT_IN_SP_SPEND_BIP32_DERIVATION, PSBT_IN_SP_TWEAK, PSBT_OUT_AMOUNT, PSBT_OUT_SP_V0_INFO,
    PSBT_OUT_SP_V0_LABEL, PsbtError, SizedType,
};

// The value length of a row that marks a key origin.
const ORIGIN: u8 = 0;

// The sized types, in the order of the definition: first those asked whatever the key data, then those
// asked only of keys without data.
const SIZED_TYPES: [SizedType; 19] = [
    SizedType {
        kind: MapKind::Global,
        tag: PSBT_GLOBAL_SP_ECDH_SHARE,
        dlen: 33,
        vlen: 33,
        bare: false,
    },
    SizedType {
        kind: MapKind::Global,
        tag: PSBT_GLOBAL_SP_DLEQ,
        dlen: 33,
        vlen: 64,
        bare: false,
    },
    SizedType {
        kind: MapKind::Input,
        tag: PSBT_IN_SP_ECDH_SHARE,
        dlen: 33,
        vlen: 33,
        bare: false,
    },
    SizedType {
        kind: MapKind::Input,
        tag: PSBT_IN_SP_DLEQ,
        dlen: 33,
        vlen: 64,
        bare: false,
    },
    SizedType {
        kind: MapKind::Input,
        tag: PSBT_IN_SP_TWEAK,
        dlen: 0,
        vlen: 32,
        bare: false,
    },
    SizedType {
        kind: MapKind::Input,
        tag: PSBT_IN_SP_SPEND_BIP32_DERIVATION,
        dlen: 33,
        vlen: ORIGIN,
        bare: false,
    },
    SizedType {
        kind: MapKind::Output,
        tag: PSBT_OUT_SP_V0_INFO,
        dlen: 0,
        vlen: 66,
        bare: false,
    },
    SizedType {
        kind: MapKind::Output,
        tag: PSBT_OUT_SP_V0_LABEL,
        dlen: 0,
        vlen: 4,
        bare: false,
    },
    SizedType {
        kind: MapKind::Global,
        tag: PSBT_GLOBAL_TX_VERSION,
        dlen: 0,
        vlen: 4,
        bare: true,
    },
    SizedType {
        kind: MapKind::Global,
        tag: PSBT_GLOBAL_FALLBACK_LOCKTIME,
        dlen: 0,
        vlen: 4,
        bare: true,
    },
    SizedType {
        kind: MapKind::Global,
        tag: PSBT_GLOBAL_VERSION,
        dlen: 0,
        vlen: 4,
        bare: true,
    },
    SizedType {
        kind: MapKind::Global,
        tag: PSBT_GLOBAL_TX_MODIFIABLE,
        dlen: 0,
        vlen: 1,
        bare: true,
    },
    SizedType {
        kind: MapKind::Input,
        tag: PSBT_IN_SIGHASH_TYPE,
        dlen: 0,
        vlen: 4,
        bare: true,
    },
    SizedType {
        kind: MapKind::Input,
        tag: PSBT_IN_OUTPUT_INDEX,
        dlen: 0,
        vlen: 4,
        bare: true,
    },
    SizedType {
        kind: MapKind::Input,
        tag: PSBT_IN_SEQUENCE,
        dlen: 0,
        vlen: 4,
        bare: true,
    },
    SizedType {
        kind: MapKind::Input,
        tag: PSBT_IN_REQUIRED_TIME_LOCKTIME,
        dlen: 0,
        vlen: 4,
        bare: true,
    },
    SizedType {
        kind: MapKind::Input,
        tag: PSBT_IN_REQUIRED_HEIGHT_LOCKTIME,
        dlen: 0,
        vlen: 4,
        bare: true,
    },
    SizedType {
        kind: MapKind::Input,
        tag: PSBT_IN_PREVIOUS_TXID,
        dlen: 0,
        vlen: 32,
        bare: true,
    },
    SizedType {
        kind: MapKind::Output,
        tag: PSBT_OUT_AMOUNT,
        dlen: 0,
        vlen: 8,
        bare: true,
    },
];

// A row is about this type in maps of this kind.
fn is_row(row: SizedType, kind: MapKind, key_type: u8) -> bool
    ensures { result ≡ is_row row (kind_of kind) key_type }
{
    row.kind == kind && row.tag == key_type
}

// A value has the length that a row asks.
fn value_fits(asked: u8, value_len: usize) -> bool
    ensures { result ≡ value_fits asked value_len }
{
    if asked != ORIGIN {
        return value_len == asked as usize;
    }
    4 <= value_len && value_len % 4 == 0
}

// A row does not speak of a key: the row is bare and the key has data.
fn is_kept(row: SizedType, key_data_len: usize) -> bool
    ensures { result ≡ is_kept row key_data_len }
{
    row.bare && key_data_len != 0
}

// Both lengths are those of a row.
fn both_fit(row: SizedType, key_data_len: usize, value_len: usize) -> bool
    ensures { result ≡ both_fit row key_data_len value_len }
{
    key_data_len == row.dlen as usize && value_fits(row.vlen, value_len)
}

// What a row says of a pair's lengths.
fn row_rule(row: SizedType, key_data_len: usize, value_len: usize) -> Result<(), PsbtError>
    ensures { result ≡ row_rule row key_data_len value_len }
{
    if is_kept(row, key_data_len) {
        return Ok(());
    }
    if both_fit(row, key_data_len, value_len) {
        Ok(())
    } else {
        Err(PsbtError::BadValue)
    }
}

// What rows say of a pair's lengths: the first that is about its type decides.
fn sizes_in(
    rows: [SizedType; 19],
    kind: MapKind,
    key_type: u8,
    key_data_len: usize,
    value_len: usize,
) -> Result<(), PsbtError>
    ensures { result ≡ sizes_in rows (kind_of kind) key_type key_data_len value_len }
{
    for row in rows {
        if is_row(row, kind, key_type) {
            return row_rule(row, key_data_len, value_len);
        }
    }
    Ok(())
}

// Some row is about this type, in maps of whatever kind.
fn has_type(rows: [SizedType; 19], key_type: u8) -> bool
    ensures { result ≡ has_type rows key_type }
{
    for row in rows {
        if row.tag == key_type {
            return true;
        }
    }
    false
}

// What the table says of a pair's lengths. A type with no row is free, and is told by the types alone.
pub fn check_sizes(
    kind: MapKind,
    key_type: u8,
    key_data_len: usize,
    value_len: usize,
) -> Result<(), PsbtError>
    ensures { result ≡ sizes (kind_of kind) key_type key_data_len value_len }
{
    if has_type(SIZED_TYPES, key_type) {
        sizes_in(SIZED_TYPES, kind, key_type, key_data_len, value_len)
    } else {
        Ok(())
    }
}

// A type whose value is a count, in a global key without data.
fn is_count(key_type: u8) -> bool
    ensures { result ≡ is_count key_type }
{
    key_type == PSBT_GLOBAL_INPUT_COUNT || key_type == PSBT_GLOBAL_OUTPUT_COUNT
}

// What is asked of a count field's value.
fn count_rule(value_len: usize, front: &[u8]) -> Result<(), PsbtError>
    ensures { result ≡ count_rule (count_by_def value_len (size front.now)) }
{
    wire::count_of(value_len, front)?;
    Ok(())
}

// What is asked of a global key without data besides sizes.
fn bare_rule(key_type: u8, value_len: usize, front: &[u8]) -> Result<(), PsbtError>
    ensures { result ≡ bare_rule_by key_type value_len front.now }
{
    if key_type == PSBT_GLOBAL_UNSIGNED_TX {
        return Err(PsbtError::NotAllowed);
    }
    if is_count(key_type) {
        count_rule(value_len, front)
    } else {
        Ok(())
    }
}

// A global key without data.
fn is_bare(kind: MapKind, key_data_len: usize) -> bool
    ensures { result ≡ is_bare (kind_of kind) key_data_len }
{
    kind == MapKind::Global && key_data_len == 0
}

// The field rule of a pair, by its lengths and its value's first nine bytes, or more of them.
pub fn field_rule(
    kind: MapKind,
    key_type: u8,
    key_data_len: usize,
    value_len: usize,
    front: &[u8],
) -> Result<(), PsbtError>
    ensures { result ≡ rule_by (kind_of kind) key_type key_data_len value_len front.now }
{
    check_sizes(kind, key_type, key_data_len, value_len)?;
    if is_bare(kind, key_data_len) {
        bare_rule(key_type, value_len, front)
    } else {
        Ok(())
    }
}
