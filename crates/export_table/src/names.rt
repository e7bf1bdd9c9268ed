//! The name of a function as a key of a hash table.

ghost use Rattle.std.specs.Prelude.{◌≡◌};
ghost use Rattle.export_table.specs.FunctionKeys.{name_of_key};

use term_core::{AtomId, Mfa};

/// The numbers of the atoms of a function's name, and its arity.
#[derive(Clone, Copy, Debug, PartialEq, Eq, Hash)]
pub struct FunctionKey {
    pub module: u32,
    pub name: u32,
    pub arity: u32,
}

/// The key of a name.
pub fn function_key(to: Mfa) -> FunctionKey
    ensures { name_of_key result ≡ to }
{
    FunctionKey {
        module: to.module.0,
        name: to.name.0,
        arity: to.arity,
    }
}

/// The name of a key.
pub fn name_of_key(key: FunctionKey) -> Mfa
    ensures { result ≡ name_of_key key }
{
    Mfa {
        module: AtomId(key.module),
        name: AtomId(key.name),
        arity: key.arity,
    }
}
