//! The labels of a function, each with the number of its instruction.

ghost use Rattle.std.specs.Prelude.{◌≡◌, OnOk, IfOk};
ghost use Rattle.mod_text.specs.LineViews.{text_form, forms_of};
ghost use Rattle.mod_text.specs.Settling.{ArePlaces, HasPlace, TakesLine, number_after, label_place};

use crate::line::line_of;
use crate::written::WrittenLine;
use std::alloc::Global;
use std::collections::HashMap;
use term_core::NoMemory;

/// The numbers of the instructions that labels name.
pub type Places<'a> = HashMap<&'a [u8], u32>;

/// The number of the instruction that a label names, if it is a label.
pub fn place_of(places: &Places<'_>, label: &[u8]) -> Option<u32>
    ensures { result ≡ label_place places.now label.now }
{
    places.get(label).copied()
}

/// Adds a label, unless it is one.
fn add_place<'a>(places: &mut Places<'a>, label: &'a [u8], number: u32) -> Result<(), NoMemory>
    ensures { OnOk result (HasPlace places.old places.new label.now number) }
{
    if place_of(places, label).is_none() {
        places.insert(label, number)?;
    }
    Ok(())
}

/// Takes a line behind so many instructions, and says how many are before the next line.
fn add_line<'a>(places: &mut Places<'a>, number: u32, line: &'a [u8]) -> Result<u32, NoMemory>
    ensures places { OnOk result (TakesLine places.old places.new number (text_form line.now)) }
    ensures number { IfOk result (λ next. next ≡ number_after number (text_form line.now)) }
{
    match line_of(line) {
        WrittenLine::Label { name } => {
            add_place(places, name, number)?;
            Ok(number)
        }
        WrittenLine::Instr(_) => number.checked_add(1).ok_or(NoMemory),
        WrittenLine::Title { .. } | WrittenLine::Header { .. } | WrittenLine::End => Ok(number),
    }
}

/// The labels of a function with this body.
pub fn places_of<'a>(alloc: Global, body: &[&'a [u8]]) -> Result<Places<'a>, NoMemory>
    ensures { IfOk result (λ places. ArePlaces places (forms_of body.now)) }
{
    // Room for each line, since a table that grows takes twice as much.
    let mut places = HashMap::with_capacity(alloc, body.len())?;
    let mut number = 0;
    for line in body {
        number = add_line(&mut places, number, line)?;
    }
    Ok(places)
}
