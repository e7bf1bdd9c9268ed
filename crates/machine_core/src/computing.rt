ghost use Rattle.std.specs.Prelude.{◌≡◌, ◌+◌, ◌≤◌, ◌∷◌, List, IfOk, OnOk};
ghost use Rattle.mod_core.specs.declared.code.Instr.{Instr as PlainInstr};
ghost use Rattle.mod_core.specs.ModuleImage.{instr_len};
ghost use Rattle.machine_core.specs.Decode.{instr_shown};
ghost use Rattle.machine_core.specs.Holds.{Holds};
ghost use Rattle.machine_core.specs.Process.{PlainFrame, Words, frame_of};
ghost use Rattle.machine_core.specs.Stand.{ComesTo, IsReadyFrame, IsSource, stand_after, stand_of};
ghost use Rattle.machine_core.specs.Turn.{computed, executed, tested};
ghost use Rattle.machine_core.specs.Values.{is_same};
ghost use Rattle.machine_core.specs.View.{HasValues, IsLawful, Shown};

use crate::integers::{difference, is_less, sum};
use crate::op::{Op, Source};
use crate::outcome::Outcome;
use crate::process::{End, Frame, Line, LineList, Value};
use crate::sources::term_in;
use crate::view::CodeView;
use std::alloc::Global;
use term_core::{NoMemory, Term};

/// How many words the instructions have that are followed by the next one.
const SUM_LEN: u32 = 4;

const TEST_LEN: u32 = 4;

const PRINT_LEN: u32 = 2;

/// Gives a register what was computed, or ends the process.
fn give(top: &mut Frame, to: u32, value: Result<Term, End>) -> Outcome
    requires { top.old.place + 1 ≤ 1024 }
    ensures ok { (words : Words) (held : Holds) (below : List PlainFrame) (made : List Line) (i : PlainInstr) → instr_len i ≡ 4 →
        stand_after held made (computed (frame_of words top.old) below held i to value)
        ≡ stand_of result (frame_of words top.new ∷ below) held made }
    ensures values { (shown : Shown) → HasValues shown top.old → HasValues shown top.new }
{
    match value {
        Ok(term) => {
            top.place += SUM_LEN;
            top.registers.set(to, Value::Owned(term));
            Outcome::GoesOn
        }
        Err(end) => Outcome::Ends(end),
    }
}

/// Goes to the place where the test holds, else past it, or ends the process.
fn decide(top: &mut Frame, target: u32, test: Result<bool, End>) -> Outcome
    requires { top.old.place + 1 ≤ 1024 }
    ensures ok { (words : Words) (held : Holds) (below : List PlainFrame) (made : List Line) (i : PlainInstr) → instr_len i ≡ 4 →
        stand_after held made (tested (frame_of words top.old) below held i target test)
        ≡ stand_of result (frame_of words top.new ∷ below) held made }
    ensures values { (shown : Shown) → HasValues shown top.old → HasValues shown top.new }
{
    match test {
        Ok(true) => {
            top.place = target;
            Outcome::GoesOn
        }
        Ok(false) => {
            top.place += TEST_LEN;
            Outcome::GoesOn
        }
        Err(end) => Outcome::Ends(end),
    }
}

/// Runs `add`.
pub fn add<V: CodeView>(
    alloc: Global,
    top: &mut Frame,
    a: &Source,
    b: &Source,
    to: u32,
    view: &mut V,
) -> Result<Outcome, NoMemory>
    requires room { top.old.place + 1 ≤ 1024 }
    requires lawful { IsLawful (V.shown view.old) }
    requires ready { IsReadyFrame (V.shown view.old) (V.held view.old) top.old }
    requires values { HasValues (V.shown view.old) top.old }
    requires first { IsSource (V.shown view.old) top.old.code.area a.now }
    requires second { IsSource (V.shown view.old) top.old.code.area b.now }
    ensures ok { IfOk result (λ outcome. ComesTo (V.shown view.old) (V.held view.old) top.old (Op.Add a.now b.now to) outcome top.new (V.held view.old)) }
    ensures values { OnOk result (HasValues (V.shown view.old) top.new) }
    ensures same { V.shown view.new ≡ V.shown view.old }
    ensures holds { V.held view.new ≡ V.held view.old }
{
    let first = term_in(alloc, top, a, view)?;
    let second = term_in(alloc, top, b, view)?;
    let value = sum(&first, &second);
    Ok(give(top, to, value))
}

/// Runs `sub`.
pub fn subtract<V: CodeView>(
    alloc: Global,
    top: &mut Frame,
    a: &Source,
    b: &Source,
    to: u32,
    view: &mut V,
) -> Result<Outcome, NoMemory>
    requires room { top.old.place + 1 ≤ 1024 }
    requires lawful { IsLawful (V.shown view.old) }
    requires ready { IsReadyFrame (V.shown view.old) (V.held view.old) top.old }
    requires values { HasValues (V.shown view.old) top.old }
    requires first { IsSource (V.shown view.old) top.old.code.area a.now }
    requires second { IsSource (V.shown view.old) top.old.code.area b.now }
    ensures ok { IfOk result (λ outcome. ComesTo (V.shown view.old) (V.held view.old) top.old (Op.Sub a.now b.now to) outcome top.new (V.held view.old)) }
    ensures values { OnOk result (HasValues (V.shown view.old) top.new) }
    ensures same { V.shown view.new ≡ V.shown view.old }
    ensures holds { V.held view.new ≡ V.held view.old }
{
    let first = term_in(alloc, top, a, view)?;
    let second = term_in(alloc, top, b, view)?;
    let value = difference(&first, &second);
    Ok(give(top, to, value))
}

/// Runs `eq`.
pub fn test_equal<V: CodeView>(
    alloc: Global,
    top: &mut Frame,
    a: &Source,
    b: &Source,
    target: u32,
    view: &mut V,
) -> Result<Outcome, NoMemory>
    requires room { top.old.place + 1 ≤ 1024 }
    requires lawful { IsLawful (V.shown view.old) }
    requires ready { IsReadyFrame (V.shown view.old) (V.held view.old) top.old }
    requires values { HasValues (V.shown view.old) top.old }
    requires first { IsSource (V.shown view.old) top.old.code.area a.now }
    requires second { IsSource (V.shown view.old) top.old.code.area b.now }
    ensures ok { IfOk result (λ outcome. ComesTo (V.shown view.old) (V.held view.old) top.old (Op.Eq a.now b.now target) outcome top.new (V.held view.old)) }
    ensures values { OnOk result (HasValues (V.shown view.old) top.new) }
    ensures same { V.shown view.new ≡ V.shown view.old }
    ensures holds { V.held view.new ≡ V.held view.old }
{
    let first = term_in(alloc, top, a, view)?;
    let second = term_in(alloc, top, b, view)?;
    let same = are_same(&first, &second);
    Ok(decide(top, target, Ok(same)))
}

/// Runs `less`.
pub fn test_less<V: CodeView>(
    alloc: Global,
    top: &mut Frame,
    a: &Source,
    b: &Source,
    target: u32,
    view: &mut V,
) -> Result<Outcome, NoMemory>
    requires room { top.old.place + 1 ≤ 1024 }
    requires lawful { IsLawful (V.shown view.old) }
    requires ready { IsReadyFrame (V.shown view.old) (V.held view.old) top.old }
    requires values { HasValues (V.shown view.old) top.old }
    requires first { IsSource (V.shown view.old) top.old.code.area a.now }
    requires second { IsSource (V.shown view.old) top.old.code.area b.now }
    ensures ok { IfOk result (λ outcome. ComesTo (V.shown view.old) (V.held view.old) top.old (Op.Less a.now b.now target) outcome top.new (V.held view.old)) }
    ensures values { OnOk result (HasValues (V.shown view.old) top.new) }
    ensures same { V.shown view.new ≡ V.shown view.old }
    ensures holds { V.held view.new ≡ V.held view.old }
{
    let first = term_in(alloc, top, a, view)?;
    let second = term_in(alloc, top, b, view)?;
    let less = is_less(&first, &second);
    Ok(decide(top, target, less))
}

/// Runs `print`.
pub fn print<V: CodeView>(
    alloc: Global,
    top: &mut Frame,
    value: &Source,
    view: &mut V,
    lines: &mut LineList,
) -> Result<Outcome, NoMemory>
    requires room { top.old.place + 1 ≤ 1024 }
    requires lawful { IsLawful (V.shown view.old) }
    requires ready { IsReadyFrame (V.shown view.old) (V.held view.old) top.old }
    requires values { HasValues (V.shown view.old) top.old }
    requires source { IsSource (V.shown view.old) top.old.code.area value.now }
    ensures ok { (below : List PlainFrame) → IfOk result (λ outcome.
        stand_after (V.held view.old) lines.old (executed (V.shown view.old).reads (frame_of (V.shown view.old).words top.old) below (V.held view.old)
        (instr_shown ((V.shown view.old).words top.old.code.area.serial) (Op.Print value.now)))
        ≡ stand_of outcome (frame_of (V.shown view.old).words top.new ∷ below) (V.held view.old) lines.new) }
    ensures values { OnOk result (HasValues (V.shown view.old) top.new) }
    ensures same { V.shown view.new ≡ V.shown view.old }
    ensures holds { V.held view.new ≡ V.held view.old }
{
    let term = term_in(alloc, top, value, view)?;
    top.place += PRINT_LEN;
    lines.push(Line::Print(term))?;
    Ok(Outcome::GoesOn)
}

/// Whether two terms are equal.
fn are_same(a: &Term, b: &Term) -> bool
    ensures { result ≡ is_same a.now b.now }
{
    a == b
}
