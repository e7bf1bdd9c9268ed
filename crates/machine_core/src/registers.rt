ghost use Rattle.std.specs.Prelude.{◌≡◌, ◌++◌, [], IfOk, IsTrue, OnOk, drop, map, replicate, slice_get, slice_set, take, unwrap_or};
ghost use Rattle.term_core.specs.Plain.{plain};
ghost use Rattle.machine_core.specs.Process.{arguments_of, entered_values, no_held, owned_terms};

use crate::process::Value;
use std::alloc::Global;
use std::marker::Model;
use term_core::{NoMemory, Term, TermList};

/// How many registers a frame has.
const REGISTERS: usize = 16;

/// The 16 registers of a frame. Contracts see what they hold, from register 0 on.
#[derive(Debug, Drop)]
pub struct ValueList {
    values: Vec<Value>,
}

impl Model for ValueList {
    ghost use Rattle.std.specs.Prelude.{List};
    ghost use Rattle.std.specs.Coded.{coded_list};
    ghost use Rattle.machine_core.specs.declared.process.Value.{Value as Held};
    ghost use Rattle.machine_core.specs.contracts.process.Value as held_contracts;

    ghost Value = { List Held };

    ghost coded = { coded_list held_contracts.the_row.coded };

    ghost view = { λ registers. registers.values.items };
}

impl ValueList {
    /// Room for registers, which holds no values yet.
    pub fn room(alloc: Global) -> Result<ValueList, NoMemory>
        ensures { IfOk result (λ room. room ≡ []) }
    {
        let values = Vec::with_capacity(alloc, REGISTERS)?;
        Ok(ValueList { values })
    }

    /// The registers of a process's first function: its arguments, and 0 in the others.
    pub fn entered(alloc: Global, args: &TermList) -> Result<ValueList, NoMemory>
        ensures { IfOk result (λ registers. registers ≡ entered_values (owned_terms args.now)) }
    {
        let mut registers = ValueList::room(alloc)?;
        push_terms(&mut registers.values, args.as_slice())?;
        fill(&mut registers.values)?;
        Ok(registers)
    }

    /// The registers of a function that is called with so many arguments, which stand here from a register on.
    /// They stand where others stood, which are dropped.
    pub fn passed(&self, others: ValueList, at: u32, count: u32) -> Result<ValueList, NoMemory>
        ensures { IfOk result (λ registers. registers ≡ entered_values (arguments_of self.now at count)) }
    {
        let mut registers = others;
        registers.empty()?;
        set_first(&mut registers, self.arguments(at, count))?;
        Ok(registers)
    }

    /// So many values, which stand in the registers from this one on.
    pub fn arguments(&self, at: u32, count: u32) -> &[Value]
        ensures { result.now ≡ arguments_of self.now at count }
    {
        arguments(self.values.as_slice(), at as usize, count as usize)
    }

    /// What the registers hold, from register 0 on.
    pub fn as_slice(&self) -> &[Value]
        ensures { result.now ≡ self.now }
    {
        self.values.as_slice()
    }

    /// The registers with these values.
    pub fn from_vec(values: Vec<Value>) -> ValueList
        ensures { result ≡ values.items }
    {
        ValueList { values }
    }

    /// What a register holds. Past the last register it is 0.
    pub fn get(&self, register: u32) -> Result<Value, NoMemory>
        ensures { IfOk result (λ value. value ≡ unwrap_or (slice_get self.now register) no_held) }
    {
        match self.values.get(register as usize) {
            Some(value) => copy(value),
            None => Ok(Value::Owned(Term::Int(0))),
        }
    }

    /// Sets a register. Past the last register nothing changes.
    pub fn set(&mut self, register: u32, value: Value)
        ensures { self.new ≡ slice_set self.old register value }
    {
        self.set_at(register as usize, value);
    }

    fn set_at(&mut self, at: usize, value: Value)
        ensures { self.new ≡ slice_set self.old at value }
    {
        if let Some(held) = self.values.get_mut(at) {
            *held = value;
        }
    }

    /// Gives each of the registers 0, whatever they hold and however many they are.
    fn empty(&mut self) -> Result<(), NoMemory>
        ensures { OnOk result (self.new ≡ entered_values []) }
    {
        self.set_zeros();
        fill(&mut self.values)?;
        Ok(())
    }

    fn set_zeros(&mut self)
        ensures { self.new ≡ map (λ _. no_held) self.old }
    {
        set_zeros(&mut self.values);
    }
}

/// So many of the values from a place on, or fewer where they end before.
fn arguments(values: &[Value], first: usize, count: usize) -> &[Value]
    ensures { result.now ≡ take count (drop first values.now) }
{
    let from = values.len().min(first);
    let rest = &values[from..];
    &rest[..rest.len().min(count)]
}

/// Appends the terms as values of a process's own.
fn push_terms(values: &mut Vec<Value>, terms: &[Term]) -> Result<(), NoMemory>
    ensures { OnOk result (values.new.items ≡ values.old.items ++ owned_terms (map plain terms.now)) }
{
    for term in terms {
        values.push(Value::Owned(term.clone()?))?;
    }
    Ok(())
}

/// Gives the registers behind these values 0.
fn fill(values: &mut Vec<Value>) -> Result<(), NoMemory>
    ensures { OnOk result (values.new.items ≡ entered_values values.old.items) }
{
    let missing = REGISTERS.saturating_sub(values.len());
    push_zeros(values, missing)?;
    values.truncate(REGISTERS);
    Ok(())
}

/// Appends so many zeros.
fn push_zeros(values: &mut Vec<Value>, count: usize) -> Result<(), NoMemory>
    ensures { OnOk result (values.new.items ≡ values.old.items ++ replicate count no_held) }
{
    values.reserve(count)?;
    for _ in 0..count {
        values.push_reserved(Value::Owned(Term::Int(0)));
    }
    Ok(())
}

/// An equal value.
fn copy(value: &Value) -> Result<Value, NoMemory>
    ensures { IfOk result (λ copy. copy ≡ value.now) }
{
    Ok(value.clone()?)
}

/// Makes each of the values 0.
fn set_zeros(values: &mut [Value])
    ensures { values.new ≡ map (λ _. no_held) values.old }
{
    for value in values.iter_mut() {
        set_zero(value);
    }
}

/// Makes the value 0. Most registers of a frame are never set, and such a one is left as it is.
fn set_zero(value: &mut Value)
    ensures { value.new ≡ no_held }
{
    if !is_zero(value) {
        *value = Value::Owned(Term::Int(0));
    }
}

/// Whether the value is known to be 0.
fn is_zero(value: &Value) -> bool
    ensures { IsTrue result → value.now ≡ no_held }
{
    match value {
        Value::Owned(Term::Int(number)) => *number == 0,
        _ => false,
    }
}

/// Gives the first registers equal values, where each holds 0.
fn set_first(registers: &mut ValueList, values: &[Value]) -> Result<(), NoMemory>
    requires { registers.old ≡ entered_values [] }
    ensures { OnOk result (registers.new ≡ entered_values values.now) }
{
    for (at, value) in values.iter().enumerate() {
        registers.set_at(at, copy(value)?);
    }
    Ok(())
}
