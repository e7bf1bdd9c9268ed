ghost use Rattle.std.specs.Prelude.{◌≡◌, IfOk, IfSome, option_map};
ghost use Rattle.machine_core.specs.Decode.{operand_shown};
ghost use Rattle.machine_core.specs.Holds.{Holds};
ghost use Rattle.machine_core.specs.Process.{frame_of, value_shown};
ghost use Rattle.machine_core.specs.Stand.{IsReadyFrame, IsSource, IsUsable, IsValueOf};
ghost use Rattle.machine_core.specs.Values.{operand_term};
ghost use Rattle.machine_core.specs.View.{IsLawful, Shown};

use crate::literals::term_of;
use crate::op::Source;
use crate::process::{Frame, LitRef, Value};
use crate::view::CodeView;
use std::alloc::Global;
use term_core::{AtomId, Found, NoMemory, Term};

/// What a source is in the frame.
pub fn value_of(frame: &Frame, source: &Source) -> Result<Value, NoMemory>
    ensures { IfOk result (λ value. (shown : Shown) (held : Holds) → IsReadyFrame shown held frame.now →
        IsSource shown frame.now.code.area source.now → IsValueOf shown held frame.now source.now value) }
{
    match source {
        Source::Register(register) => frame.registers.get(*register),
        Source::Immediate(term) => Ok(Value::Owned(term.clone()?)),
        Source::Constant(at) => Ok(Value::Literal(LitRef {
            area: frame.code.area,
            at: *at,
        })),
    }
}

/// The term of a source in the frame.
pub fn term_in<V: CodeView>(
    alloc: Global,
    frame: &Frame,
    source: &Source,
    view: &mut V,
) -> Result<Term, NoMemory>
    requires lawful { IsLawful (V.shown view.old) }
    requires ready { IsReadyFrame (V.shown view.old) (V.held view.old) frame.now }
    requires source { IsSource (V.shown view.old) frame.now.code.area source.now }
    ensures ok { IfOk result (λ term. term ≡ operand_term (frame_of (V.shown view.old).words frame.now)
        (operand_shown ((V.shown view.old).words frame.now.code.area.serial) source.now)) }
    ensures same { V.shown view.new ≡ V.shown view.old }
    ensures holds { V.held view.new ≡ V.held view.old }
{
    let value = value_of(frame, source)?;
    term_of(alloc, value, view)
}

/// What a key holds, if it holds a term.
pub fn key_value<V: CodeView>(key: AtomId, view: &mut V) -> Option<Value>
    requires lawful { IsLawful (V.shown view.old) }
    ensures value { option_map (value_shown (V.shown view.old).words) result ≡ (V.shown view.old).reads.key key.0 }
    ensures usable { IfSome result (IsUsable (V.shown view.old) (V.held view.old)) }
    ensures same { V.shown view.new ≡ V.shown view.old }
    ensures holds { V.held view.new ≡ V.held view.old }
{
    match view.term(key) {
        Found::Absent => None,
        Found::Word(word) => Some(Value::Owned(Term::of_word(word))),
        Found::Area(area) => Some(Value::Literal(LitRef { area, at: 0 })),
    }
}
