ghost use Rattle.std.specs.Prelude.{◌≡◌};
ghost use Rattle.server_core.specs.ServerState.{entry_of};
ghost use Rattle.machine_core.specs.View.{IsInBlock, IsLawful};
ghost use Rattle.machine_core.specs.Reads.{HasFunction, mfa_of};
ghost use Rattle.machine_core.specs.Reach.{MayHold};

use crate::layout::{ARITY_WORD, HEAD_LEN, MODULE_PLACE, TABLE_PLACE};
use crate::view::CodeView;
use term_core::{AtomId, CodeRef, Kind, Mfa};

/// The name of a function of an instance, as the words of the instance say it.
pub fn mfa_of<V: CodeView>(code: CodeRef, view: &mut V) -> Mfa
    requires lawful { IsLawful (V.shown view.old) }
    requires stands { IsInBlock (V.shown view.old) code.area }
    requires known { HasFunction (V.shown view.old).reads (entry_of code) }
    requires reached { MayHold (V.shown view.old).reads (V.held view.old) code.area.serial Kind.Frame }
    ensures value { result ≡ mfa_of (V.shown view.old).reads (entry_of code) }
    ensures same { V.shown view.new ≡ V.shown view.old }
    ensures holds { V.held view.new ≡ V.held view.old }
{
    let module = module_name(code, view);
    let name = function_name(code, view);
    let arity = arity(code, view);
    Mfa {
        module,
        name,
        arity,
    }
}

/// The name of the module of a function's instance.
fn module_name<V: CodeView>(code: CodeRef, view: &mut V) -> AtomId
    requires lawful { IsLawful (V.shown view.old) }
    requires stands { IsInBlock (V.shown view.old) code.area }
    requires known { HasFunction (V.shown view.old).reads (entry_of code) }
    requires reached { MayHold (V.shown view.old).reads (V.held view.old) code.area.serial Kind.Frame }
    ensures value { result ≡ (V.shown view.old).reads.module_name code.area.serial }
    ensures same { V.shown view.new ≡ V.shown view.old }
    ensures holds { V.held view.new ≡ V.held view.old }
{
    AtomId(view.word(code.area, MODULE_PLACE) as u32)
}

/// The name of a function of an instance, without its module.
fn function_name<V: CodeView>(code: CodeRef, view: &mut V) -> AtomId
    requires lawful { IsLawful (V.shown view.old) }
    requires stands { IsInBlock (V.shown view.old) code.area }
    requires known { HasFunction (V.shown view.old).reads (entry_of code) }
    requires reached { MayHold (V.shown view.old).reads (V.held view.old) code.area.serial Kind.Frame }
    ensures value { result ≡ (V.shown view.old).reads.function_name (entry_of code) }
    ensures same { V.shown view.new ≡ V.shown view.old }
    ensures holds { V.held view.new ≡ V.held view.old }
{
    let place = TABLE_PLACE + HEAD_LEN * code.function;
    AtomId(view.word(code.area, place) as u32)
}

/// How many arguments a function of an instance takes.
fn arity<V: CodeView>(code: CodeRef, view: &mut V) -> u32
    requires lawful { IsLawful (V.shown view.old) }
    requires stands { IsInBlock (V.shown view.old) code.area }
    requires known { HasFunction (V.shown view.old).reads (entry_of code) }
    requires reached { MayHold (V.shown view.old).reads (V.held view.old) code.area.serial Kind.Frame }
    ensures value { result ≡ (V.shown view.old).reads.arity (entry_of code) }
    ensures same { V.shown view.new ≡ V.shown view.old }
    ensures holds { V.held view.new ≡ V.held view.old }
{
    let place = TABLE_PLACE + HEAD_LEN * code.function + ARITY_WORD;
    (view.word(code.area, place) / 2) as u32
}
