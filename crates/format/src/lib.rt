// What every other crate speaks of: the Rust's constants, the refusals, and the plain answers.
#![tactic(auto)]

ghost use Rattle.std.specs.Prelude.{◌≡◌};
ghost use Rattle.format.specs.Refusals.{number_of};
ghost use Rattle.format.specs.Rules.{kind_of, kind_number};

// A lock number below this is a block height, any other a time.
pub const THRESHOLD: u32 = 500_000_000;

// How many bytes a public key has.
pub const PUBKEY_LEN: usize = 33;

// The longest file that is read, in bytes.
pub const LIMIT: usize = 1_048_576;

// The types of keys in the global map, under the Rust's names.
pub const PSBT_GLOBAL_UNSIGNED_TX: u8 = 0x00;

pub const PSBT_GLOBAL_XPUB: u8 = 0x01;

pub const PSBT_GLOBAL_TX_VERSION: u8 = 0x02;

pub const PSBT_GLOBAL_FALLBACK_LOCKTIME: u8 = 0x03;

pub const PSBT_GLOBAL_INPUT_COUNT: u8 = 0x04;

pub const PSBT_GLOBAL_OUTPUT_COUNT: u8 = 0x05;

pub const PSBT_GLOBAL_TX_MODIFIABLE: u8 = 0x06;

pub const PSBT_GLOBAL_SP_ECDH_SHARE: u8 = 0x07;

pub const PSBT_GLOBAL_SP_DLEQ: u8 = 0x08;

pub const PSBT_GLOBAL_VERSION: u8 = 0xfb;

pub const PSBT_GLOBAL_PROPRIETARY: u8 = 0xfc;

// The types of keys in an input's map.
pub const PSBT_IN_NON_WITNESS_UTXO: u8 = 0x00;

pub const PSBT_IN_WITNESS_UTXO: u8 = 0x01;

pub const PSBT_IN_PARTIAL_SIG: u8 = 0x02;

pub const PSBT_IN_SIGHASH_TYPE: u8 = 0x03;

pub const PSBT_IN_REDEEM_SCRIPT: u8 = 0x04;

pub const PSBT_IN_WITNESS_SCRIPT: u8 = 0x05;

pub const PSBT_IN_BIP32_DERIVATION: u8 = 0x06;

pub const PSBT_IN_FINAL_SCRIPTSIG: u8 = 0x07;

pub const PSBT_IN_FINAL_SCRIPTWITNESS: u8 = 0x08;

pub const PSBT_IN_POR_COMMITMENT: u8 = 0x09;

pub const PSBT_IN_RIPEMD160: u8 = 0x0a;

pub const PSBT_IN_SHA256: u8 = 0x0b;

pub const PSBT_IN_HASH160: u8 = 0x0c;

pub const PSBT_IN_HASH256: u8 = 0x0d;

pub const PSBT_IN_PREVIOUS_TXID: u8 = 0x0e;

pub const PSBT_IN_OUTPUT_INDEX: u8 = 0x0f;

pub const PSBT_IN_SEQUENCE: u8 = 0x10;

pub const PSBT_IN_REQUIRED_TIME_LOCKTIME: u8 = 0x11;

pub const PSBT_IN_REQUIRED_HEIGHT_LOCKTIME: u8 = 0x12;

pub const PSBT_IN_TAP_KEY_SIG: u8 = 0x13;

pub const PSBT_IN_TAP_SCRIPT_SIG: u8 = 0x14;

pub const PSBT_IN_TAP_LEAF_SCRIPT: u8 = 0x15;

pub const PSBT_IN_TAP_BIP32_DERIVATION: u8 = 0x16;

pub const PSBT_IN_TAP_INTERNAL_KEY: u8 = 0x17;

pub const PSBT_IN_TAP_MERKLE_ROOT: u8 = 0x18;

pub const PSBT_IN_MUSIG2_PARTICIPANT_PUBKEYS: u8 = 0x1a;

pub const PSBT_IN_MUSIG2_PUB_NONCE: u8 = 0x1b;

pub const PSBT_IN_MUSIG2_PARTIAL_SIG: u8 = 0x1c;

pub const PSBT_IN_SP_ECDH_SHARE: u8 = 0x1d;

pub const PSBT_IN_SP_DLEQ: u8 = 0x1e;

pub const PSBT_IN_SP_SPEND_BIP32_DERIVATION: u8 = 0x1f;

pub const PSBT_IN_SP_TWEAK: u8 = 0x20;

pub const PSBT_IN_PROPRIETARY: u8 = 0xfc;

// The types of keys in an output's map.
pub const PSBT_OUT_REDEEM_SCRIPT: u8 = 0x00;

pub const PSBT_OUT_WITNESS_SCRIPT: u8 = 0x01;

pub const PSBT_OUT_BIP32_DERIVATION: u8 = 0x02;

pub const PSBT_OUT_AMOUNT: u8 = 0x03;

pub const PSBT_OUT_SCRIPT: u8 = 0x04;

pub const PSBT_OUT_TAP_INTERNAL_KEY: u8 = 0x05;

pub const PSBT_OUT_TAP_TREE: u8 = 0x06;

pub const PSBT_OUT_TAP_BIP32_DERIVATION: u8 = 0x07;

pub const PSBT_OUT_MUSIG2_PARTICIPANT_PUBKEYS: u8 = 0x08;

pub const PSBT_OUT_SP_V0_INFO: u8 = 0x09;

pub const PSBT_OUT_SP_V0_LABEL: u8 = 0x0a;

pub const PSBT_OUT_DNSSEC_PROOF: u8 = 0x35;

pub const PSBT_OUT_PROPRIETARY: u8 = 0xfc;

// The kinds of map: the global one, an input's, an output's, and any other, which no file has: of such a kind no type is sized
// or noted.
#[derive(Clone, Copy, PartialEq, Eq)]
pub enum MapKind {
    Global,
    Input,
    Output,
    Other,
}

impl From<u8> for MapKind {
    // The kind of a number.
    fn from(number: u8) -> Self
        ensures { kind_of result ≡ kind_number number }
    {
        match number {
            0 => MapKind::Global,
            1 => MapKind::Input,
            2 => MapKind::Output,
            _ => MapKind::Other,
        }
    }
}

// Why a call is refused: the Rust's names in the Rust's order, then those that lent memory adds. They count from 1.
#[derive(Clone, Copy, Debug, PartialEq, Eq)]
pub enum PsbtError {
    InvalidMagic = 1,
    UnexpectedEof,
    InvalidCompactSize,
    MapTerminatorMissing,
    DuplicateKey,
    UnsortedKeys,
    BadValue,
    MissingCounts,
    MissingOutputIndex,
    MissingRedeemScript,
    MissingWitnessScript,
    CountsTooLarge,
    NotAllowed,
    OutOfRange,
    UnknownOutputType,
    Unsupported,
    MissingOutputScript,
    InvalidSilentPayment,
    InvalidOutputScripts,
    InvalidSighashType,
    TooLong,
    PairsFull,
    MapsFull,
    BadIndex,
    NoRoom,
}

impl PsbtError {
    // The refusal's number.
    pub fn number(self) -> u8
        ensures { result ≡ number_of self }
    {
        self as u8
    }
}

// A compact size at the front of some bytes: its value and how many bytes spell it.
#[derive(Clone, Copy)]
pub struct CompactSize {
    pub value: u64,
    pub used: usize,
}

// A row of the table of sized types: kind of map, type, length of the key data, length of the value.
// A value of 0 marks a key origin: at least 4 bytes, a multiple of 4. A bare row speaks only of keys without data.
#[derive(Clone, Copy)]
pub struct SizedType {
    pub kind: MapKind,
    pub tag: u8,
    pub dlen: u8,
    pub vlen: u8,
    pub bare: bool,
}

// What parse reports of the global map. A number that is absent is not 0.
#[derive(Clone, Copy)]
pub struct Psbt {
    pub tx_version: i32,
    pub fallback_locktime: Option<u32>,
    pub tx_modifiable: Option<u32>,
    pub inputs: u64,
    pub outputs: u64,
}

// What parse answers. Kept beside Result: a refusal too reports how many entries of both tables are used.
#[derive(Clone, Copy)]
pub enum Parsed {
    Accepted {
        psbt: Psbt,
        pairs: usize,
        maps: usize,
    },
    Refused {
        error: PsbtError,
        pairs: usize,
        maps: usize,
    },
}

// A pair's entry: where its key and its value stand in the file.
#[derive(Clone, Copy)]
pub struct PairEntry {
    pub key: usize,
    pub klen: usize,
    pub value: usize,
    pub vlen: usize,
}

// A map's entry: its first pair's number and how many pairs it has.
#[derive(Clone, Copy)]
pub struct MapEntry {
    pub first: usize,
    pub count: usize,
}

// Where some bytes stand in the file. A lookup that is not refused answers it, or that there is none.
#[derive(Clone, Copy)]
pub struct Part {
    pub start: usize,
    pub len: usize,
}

// What a listing by type answers: the first pair's number in its map, and how many there are.
#[derive(Clone, Copy)]
pub struct Listed {
    pub first: usize,
    pub count: usize,
}

// A witness UTXO: the amount, and where its script stands in the file.
#[derive(Clone, Copy)]
pub struct WitnessUtxo {
    pub amount: u64,
    pub start: usize,
    pub len: usize,
}

// What decided the lock: the greatest height or time and the input that asks for it, the fallback (0 if
// absent), or the rule that forbids what the inputs ask for and the inputs at fault.
#[derive(Clone, Copy)]
pub enum Lock {
    Height { number: u32, input: u64 },
    Time { number: u32, input: u64 },
    Fallback { number: u32 },
    BothKinds { height_input: u64, time_input: u64 },
    HeightTooGreat { number: u32, input: u64 },
    TimeTooSmall { number: u32, input: u64 },
    Malformed { input: u64 },
}

// How far a signing job is: whether scripts were set, and whether a transaction was written.
#[derive(Clone, Copy)]
pub struct State {
    pub set: bool,
    pub written: bool,
}

// A script for an output: the output's number, and where the script stands in its buffer.
#[derive(Clone, Copy)]
pub struct Assignment {
    pub output: u64,
    pub start: u64,
    pub len: u64,
}

// What the transaction answers where it is not refused: how many bytes it has and the new state.
#[derive(Clone, Copy)]
pub struct Written {
    pub len: usize,
    pub state: State,
}

// Where an output's script stands: in the file or in the script table.
#[derive(Clone, Copy)]
pub enum ScriptPlace {
    InFile { start: usize, len: usize },
    InTable { start: usize, len: usize },
}
