//! The layout of an image: numbers of instructions, tags and places.

/// The numbers of the instructions, each in the first word of its instruction.
pub(crate) const MOVE: u64 = 1;

pub(crate) const ADD: u64 = 2;

pub(crate) const SUB: u64 = 3;

pub(crate) const EQ: u64 = 4;

pub(crate) const LESS: u64 = 5;

pub(crate) const JUMP: u64 = 6;

pub(crate) const CALL: u64 = 7;

pub(crate) const CALL_EXT: u64 = 8;

pub(crate) const RET: u64 = 9;

pub(crate) const PGET: u64 = 10;

pub(crate) const PGET_OR: u64 = 11;

pub(crate) const ELEM: u64 = 12;

pub(crate) const PRINT: u64 = 13;

pub(crate) const YIELD: u64 = 14;

/// How many words the head of an image has, and the head of each function.
pub(crate) const HEAD_WORDS: usize = 4;

/// The place of the number of functions.
pub(crate) const COUNT_PLACE: usize = 3;

/// The place of the first function's entry word.
pub(crate) const FIRST_ENTRY: usize = 6;

/// How many words the return behind a function's code has.
pub(crate) const RETURN_WORDS: usize = 2;

/// How many numbers an atom has room for in the word of an external name.
pub(crate) const ATOM_ROOM: u64 = 4096;

/// How many arities have room there, below the atoms.
pub(crate) const ARITY_ROOM: u64 = 16;

/// The low four bits of a word are its tag.
pub(crate) const TAG_COUNT: u64 = 16;

/// The tag of the place of a complex constant's image.
pub(crate) const CONSTANT_TAG: u64 = 5;

pub(crate) const REGISTER_TAG: u64 = 6;
