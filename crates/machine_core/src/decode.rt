ghost use Rattle.std.specs.Prelude.{◌≡◌, ◌<◌};
ghost use Rattle.machine_core.specs.Decode.{atom_of_word, len_of_number, name_of_word, number_of_word, op_of_words, register_of_word, source_of_word, value_op};

use crate::op::{Op, Source};
use term_core::{AtomId, Mfa, Term};

/// The numbers of the instructions. A word with another number is read as a return's.
const MOVE: u64 = 1;

const ADD: u64 = 2;

const SUB: u64 = 3;

const EQ: u64 = 4;

const LESS: u64 = 5;

const JUMP: u64 = 6;

const CALL: u64 = 7;

const CALL_EXT: u64 = 8;

const PGET: u64 = 10;

const PGET_OR: u64 = 11;

const ELEM: u64 = 12;

const PRINT: u64 = 13;

const YIELD: u64 = 14;

/// The low four bits of an operand's word are its tag, and those of a name's word its arity.
const TAG_COUNT: u64 = 16;

const CONSTANT_TAG: u64 = 5;

const REGISTER_TAG: u64 = 6;

const REGISTER_COUNT: u64 = 16;

/// Atoms have numbers below this one.
const ATOM_COUNT: u64 = 4096;

/// Where the number of the module stands in a name's word, behind arity and name.
const MODULE_UNIT: u64 = TAG_COUNT * ATOM_COUNT;

/// Places and numbers of functions are below this number.
const NUMBER_COUNT: u64 = 4_294_967_296;

/// How many words an instruction with this number has.
pub fn len_of_number(number: u64) -> u32
    ensures value { result ≡ len_of_number number }
    ensures few { result < 5 }
{
    match number {
        MOVE | CALL | CALL_EXT | PGET => 3,
        ADD | SUB | EQ | LESS | PGET_OR | ELEM => 4,
        YIELD => 1,
        _ => 2,
    }
}

/// The instruction that the words stand for. Words that it does not have are not looked at.
pub fn decode(number: u64, first: u64, second: u64, third: u64) -> Op
    ensures { result ≡ op_of_words number first second third }
{
    match number {
        MOVE => Op::Move {
            from: source_of_word(first),
            to: register_of_word(second),
        },
        ADD => Op::Add {
            a: source_of_word(first),
            b: source_of_word(second),
            to: register_of_word(third),
        },
        SUB => Op::Sub {
            a: source_of_word(first),
            b: source_of_word(second),
            to: register_of_word(third),
        },
        EQ => Op::Eq {
            a: source_of_word(first),
            b: source_of_word(second),
            target: number_of_word(third),
        },
        LESS => Op::Less {
            a: source_of_word(first),
            b: source_of_word(second),
            target: number_of_word(third),
        },
        JUMP => Op::Jump {
            target: number_of_word(first),
        },
        CALL => Op::Call {
            function: number_of_word(first),
            at: register_of_word(second),
        },
        CALL_EXT => Op::CallExt {
            to: name_of_word(first),
            at: register_of_word(second),
        },
        _ => decode_value(number, first, second, third),
    }
}

/// Of the instructions that neither compute, test nor call: one that reads, prints or returns a value, or a yield.
fn decode_value(number: u64, first: u64, second: u64, third: u64) -> Op
    ensures { result ≡ value_op number first second third }
{
    match number {
        PGET => Op::Pget {
            key: atom_of_word(first),
            to: register_of_word(second),
        },
        PGET_OR => Op::PgetOr {
            key: atom_of_word(first),
            other: source_of_word(second),
            to: register_of_word(third),
        },
        ELEM => Op::Elem {
            index: source_of_word(first),
            from: source_of_word(second),
            to: register_of_word(third),
        },
        PRINT => Op::Print {
            value: source_of_word(first),
        },
        YIELD => Op::Yield,
        _ => Op::Ret {
            value: source_of_word(first),
        },
    }
}

fn source_of_word(word: u64) -> Source
    ensures { result ≡ source_of_word word }
{
    match word % TAG_COUNT {
        REGISTER_TAG => Source::Register(register_of_word(word)),
        CONSTANT_TAG => Source::Constant(number_of_word(word / TAG_COUNT)),
        _ => Source::Immediate(Term::of_word(word)),
    }
}

fn register_of_word(word: u64) -> u32
    ensures { result ≡ register_of_word word }
{
    (word / TAG_COUNT % REGISTER_COUNT) as u32
}

fn number_of_word(word: u64) -> u32
    ensures { result ≡ number_of_word word }
{
    (word % NUMBER_COUNT) as u32
}

fn atom_of_word(word: u64) -> AtomId
    ensures { result ≡ atom_of_word word }
{
    AtomId(number_of_word(word / TAG_COUNT))
}

fn name_of_word(word: u64) -> Mfa
    ensures { result ≡ name_of_word word }
{
    Mfa {
        module: AtomId((word / MODULE_UNIT % ATOM_COUNT) as u32),
        name: AtomId((word / TAG_COUNT % ATOM_COUNT) as u32),
        arity: (word % TAG_COUNT) as u32,
    }
}
