//! The parts of a line as they are written: names are slices of the text.

ghost use Rattle.std.specs.Prelude.{◌≤◌, vec_len, All, IsTrue};
ghost use Rattle.mod_core.specs.declared.code.TheConstants.{MOST_ARGUMENTS};
ghost use Rattle.script_text.specs.KeptTerm.{kept_argument, is_sound_word};

/// A version of a module, as a line names it.
#[derive(Clone, Copy)]
pub struct WrittenRef<'a> {
    pub name: &'a [u8],
    pub version: u32,
}

/// A command of one atom, by its word.
#[derive(Clone, Copy)]
pub enum AtomWord {
    Delete,
    SoftPurge,
    Purge,
    CheckOld,
    Erase,
}

/// A breakpoint, as a `trace` names it: its function, and whether it is set.
#[derive(Clone, Copy)]
pub struct WrittenTrace<'a> {
    pub module: &'a [u8],
    pub name: &'a [u8],
    pub arity: u32,
    pub on: bool,
}

/// A term of a line.
#[derive(Clone, Copy)]
pub enum WrittenArgument<'a> {
    /// None where the integer has more than 60 bits.
    Integer(Option<i64>),
    Atom(&'a [u8]),
    /// The text of a tuple or a list.
    Complex(&'a [u8]),
}

/// A put of a term under a key.
#[derive(Clone, Copy)]
pub struct WrittenPut<'a> {
    pub key: &'a [u8],
    pub term: WrittenArgument<'a>,
}

/// A call, as a `spawn` names it.
#[derive(Drop)]
pub struct WrittenCall<'a> {
    pub module: &'a [u8],
    pub name: &'a [u8],
    pub args: Vec<WrittenArgument<'a>>,
    ghost few: { vec_len args ≤ MOST_ARGUMENTS },
    ghost sound: { All (λ argument. IsTrue (is_sound_word (kept_argument argument))) args.items },
}
