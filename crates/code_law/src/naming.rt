//! Which generations in the shared words are those of the code server.

use shared_words::Served;
use std::marker::{Brand, PhantomData};

/// The names of functions by their numbers, in which generations are published.
pub trait Naming {
    ghost use Rattle.std.specs.Prelude.{List};
    ghost use Rattle.term_core.specs.declared.atom.Mfa.{Mfa};

    ghost names: { List Mfa };
}

impl Naming for Brand {
    ghost use Rattle.std.specs.Prelude.{[]};

    ghost names = { [] };
}

/// Generations of the code server, by these numbers of names.
pub struct CodeLaw<K> {
    marker: PhantomData<K>,
}

impl<K: Naming> Served for CodeLaw<K> {
    ghost use Rattle.code_law.specs.Served.{IsServed};

    ghost served = { λ p. IsServed K.names p };
}
