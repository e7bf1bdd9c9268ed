ghost use Rattle.std.specs.Prelude.{◌≡◌};
ghost use Rattle.server_core.specs.ServerState.{export_of, function_named, is_export, is_named};

use mod_core::{Function, Module};
use term_core::Mfa;

/// The place of the function with this name and arity in a module, exported or local.
pub fn function_named(code: &Module, to: Mfa) -> Option<usize>
    ensures { result ≡ function_named code.now to }
{
    code.functions
        .as_slice()
        .iter()
        .position(|function| is_named(function, to))
}

/// Whether a function has this name and arity.
fn is_named(function: &Function, to: Mfa) -> bool
    ensures { result ≡ is_named to function.now }
{
    function.name.0 == to.name.0 && function.arity == to.arity
}

/// The place of the function that a module exports under a name and arity.
pub fn export_of(code: &Module, to: Mfa) -> Option<usize>
    ensures { result ≡ export_of code.now to }
{
    code.functions
        .as_slice()
        .iter()
        .position(|function| is_export(function, to))
}

/// Whether a function is exported under this name and arity.
fn is_export(function: &Function, to: Mfa) -> bool
    ensures { result ≡ is_export to function.now }
{
    function.exported && function.name.0 == to.name.0 && function.arity == to.arity
}
