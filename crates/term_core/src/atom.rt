/// The number of an atom in a table of names.
#[derive(Clone, Copy, Debug, PartialEq, Eq)]
pub struct AtomId(pub u32);

impl AtomId {
    /// The atom `true`, which each table of names has.
    pub const TRUE: AtomId = AtomId(0);

    /// The atom `false`.
    pub const FALSE: AtomId = AtomId(1);

    /// The atom `ok`.
    pub const OK: AtomId = AtomId(2);
}

/// The name of a function: module, function and arity, as Erlang's `m:f/a`.
#[derive(Clone, Copy, Debug, PartialEq, Eq)]
pub struct Mfa {
    pub module: AtomId,
    pub name: AtomId,
    /// At most 15.
    pub arity: u32,
}
