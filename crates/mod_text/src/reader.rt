//! The lines of a module's text, read one after another.

ghost use Rattle.std.specs.Prelude.{◌≡◌, List, [], ◌∷◌, ◌++◌, true, false, option_map, bytes_eq, IsTrue, IfOk, OnOk, OnErr};
ghost use Rattle.std.specs.List.{list_any};
ghost use Rattle.mod_text.specs.LineViews.{line_form, headers_of, words_of};
ghost use Rattle.mod_text.specs.LineReading.{has_sound_terms};
ghost use Rattle.mod_text.specs.LineFaults.{may_follow as may_stand_behind, counted_name};
ghost use Rattle.mod_text.specs.ModuleLine.{LineForm, is_line_form};
ghost use Rattle.mod_text.specs.ModuleValue.{is_header, title_of as title_of_lines};
ghost use Rattle.mod_text.specs.Keeping.{IsKept, judged_behind, is_end_line};
ghost use Rattle.mod_text.specs.Reading.{Gives};

use crate::fault::{FinishFault, LineFault};
use crate::limits::{has_high_register, has_long_term, has_wide_integer, is_short, may_follow};
use crate::line::{read_line, split_line};
use crate::naming::add_atoms;
use crate::settling::{settled_module, title_of};
use crate::values::mfa_of;
use crate::written::{WrittenInstr, WrittenLine};
use indexmap::IndexSet;
use mod_core::{MOST_FUNCTIONS, Module};
use std::alloc::Global;
use std::marker::Model;
use term_core::{AtomId, Mfa, Names, NoMemory};

fn is_end(line: Option<&WrittenLine<'_>>) -> bool
    ensures { result ≡ is_end_line (option_map (λ line. line_form line.now) line.entry) }
{
    matches!(line, Some(WrittenLine::End))
}

fn has_header(functions: &[(&[u8], &[u8])], name: &[u8], arity: &[u8]) -> bool
    ensures { result ≡ list_any (λ h. is_header name.now arity.now (h.0.now, h.1.now)) functions.now }
{
    functions
        .iter()
        .any(|function| function.0 == name && function.1 == arity)
}

/// Whether a function of this name and arity is among these.
fn is_given(functions: &[(&[u8], &[u8])], name: &[u8], arity: &[u8]) -> bool
    ensures { result ≡ list_any (is_header name.now arity.now) (headers_of functions.now) }
{
    has_header(functions, name, arity)
}

/// The line, if it may stand behind this one, and its registers, integers and terms are within their limits.
fn judge<'b>(
    before: Option<&WrittenLine<'_>>,
    line: WrittenLine<'b>,
) -> Result<WrittenLine<'b>, LineFault>
    requires { IsTrue (is_line_form (line_form line)) }
    ensures read { Gives line_form result (judged_behind (option_map (λ line. line_form line.now) before.entry) (line_form line.entry)) }
    ensures kept { IfOk result (λ line. IsKept (line_form line)) }
    ensures place { IfOk result (λ line. may_stand_behind (option_map (λ line. line_form line.now) before.entry) (line_form line) ≡ true) }
{
    if !may_follow(before, &line) {
        return Err(LineFault::Syntax);
    }
    if has_high_register(&line) {
        return Err(LineFault::Register);
    }
    if has_wide_integer(&line) {
        return Err(LineFault::Int);
    }
    if has_long_term(&line) {
        return Err(LineFault::Term);
    }
    Ok(line)
}

/// The function name that a line has, behind the lines of the module of this name.
#[tactic(auto, using(std::proofs::lemmas::Bool::and_parts))]
fn counted_name(names: &Names, title: &[u8], line: &WrittenLine<'_>) -> Option<Mfa>
    requires { has_sound_terms (line_form line.now) ≡ true → IsTrue (is_line_form (line_form line.now)) }
    ensures { (lines : List LineForm) → title.now ≡ (title_of_lines lines).0 → result ≡ counted_name names.now lines (line_form line.now) }
{
    match line {
        WrittenLine::Header {
            exported: true,
            name,
            arity,
        } => Some(mfa_of(names, title, name, arity)),
        WrittenLine::Instr(
            WrittenInstr::CallExt {
                module,
                name,
                arity,
                ..
            },
        ) => Some(mfa_of(names, module, name, arity)),
        _ => None,
    }
}

fn is_among(labels: &IndexSet<&[u8]>, name: &[u8]) -> bool
    ensures { result ≡ list_any (bytes_eq name.now) (words_of labels.now.keys) }
{
    labels.contains(&name)
}

/// Adds a label that is not among them. Where memory is refused, nothing is added.
fn add_label<'b>(labels: &mut IndexSet<&'b [u8]>, name: &'b [u8]) -> Result<(), NoMemory>
    requires { list_any (bytes_eq name.now) (words_of labels.old.keys) ≡ false }
    ensures ok { OnOk result (words_of labels.new.keys ≡ words_of labels.old.keys ++ name.now ∷ []) }
    ensures err { OnErr result (labels.new.keys ≡ labels.old.keys) }
{
    labels.insert(name)?;
    Ok(())
}

/// The lines of a module's text so far, from the line of its title on. Contracts see the list of their forms.
///
/// It keeps the text of each line, which is read again at the end, and not its form: a form takes more than ten times a
/// short line.
#[derive(Drop)]
pub struct ModuleReader<'a> {
    // The lines, by their texts.
    lines: Vec<&'a [u8]>,
    // The last line.
    last: Option<WrittenLine<'a>>,
    // The names and arities of the functions so far.
    functions: Vec<(&'a [u8], &'a [u8])>,
    // The labels of the function at hand.
    labels: IndexSet<&'a [u8]>,
}

impl<'a> Model for ModuleReader<'a> {
    ghost use Rattle.std.specs.Prelude.{List, option_map};
    ghost use Rattle.std.specs.Coded.{codes};
    ghost use Rattle.mod_text.specs.ModuleLine.{LineForm};
    ghost use Rattle.mod_text.specs.WrittenCode.{written_code};

    ghost Value = { List LineForm };

    ghost coded = { Prim.hlevel (codes, written_code) };

    ghost use Rattle.mod_text.specs.LineViews.{line_form, forms_of, headers_of, words_of};
    ghost use Rattle.mod_text.specs.Keeping.{AreKept};

    ghost view = { λ r. forms_of r.lines.items };

    ghost invariant = { λ r. AreKept (forms_of r.lines.items) (option_map line_form r.last) (headers_of r.functions.items) (words_of r.labels.keys) };
}

impl<'a> ModuleReader<'a> {
    ghost use Rattle.std.specs.Prelude.{◌≡◌, ℕ, List, [], ◌∷◌, ◌++◌, length, Bool, true, OnOk, OnErr, IfOk, IfErr, Some, None, IsTrue, ◌↔◌};
    ghost use Rattle.term_core.specs.Names.{IsNames, Extends};
    ghost use Rattle.mod_text.specs.ModuleLine.{header, label, end};
    ghost use Rattle.mod_text.specs.LineViews.{line_form, text_form};
    ghost use Rattle.mod_text.specs.LineReading.{line_reading};
    ghost use Rattle.mod_text.specs.Keeping.{IsKept, judged_alone, keeping};
    ghost use Rattle.mod_text.specs.LineFaults.{may_follow, labels_after, last_line, counted_of};
    ghost use Rattle.mod_text.specs.ModuleValue.{headers_in, module_of, unsettled_line, IsTitled, IsMissing};
    ghost use Rattle.mod_text.specs.Reading.{Gives, line_step};

    /// No lines. It takes no memory.
    pub fn new(alloc: Global) -> ModuleReader<'a>
        ensures { result ≡ [] }
    {
        ModuleReader {
            lines: Vec::new(alloc),
            last: None,
            functions: Vec::new(alloc),
            labels: IndexSet::new(alloc),
        }
    }

    /// How many lines there are.
    pub fn len(&self) -> usize
        ensures { result ≡ length self.now }
    {
        self.lines.len()
    }

    /// Whether there are no lines.
    pub fn is_empty(&self) -> bool
        ensures { IsTrue result ↔ (self.now ≡ []) }
    {
        self.lines.is_empty()
    }

    /// Whether the last line is `end`.
    pub fn is_closed(&self) -> bool
        ensures { IsTrue result ↔ (last_line self.now ≡ Some end) }
    {
        is_end(self.last.as_ref())
    }

    /// The line with this text, if it may stand behind these, and its registers, integers and terms are within their limits.
    fn next_line<'b>(&self, text: &'b [u8]) -> Result<WrittenLine<'b>, LineFault>
        ensures read { Gives line_form result (judged_alone self.now (line_reading text.now)) }
        ensures kept { IfOk result (λ line. IsKept (line_form line)) }
        ensures place { IfOk result (λ line. may_follow (last_line self.now) (line_form line) ≡ true) }
    {
        match read_line(*self.lines.allocator(), text)? {
            None => Err(LineFault::Syntax),
            Some(line) => judge(self.last.as_ref(), line),
        }
    }

    fn keep_header(
        &mut self,
        text: &'a [u8],
        line: WrittenLine<'a>,
        name: &'a [u8],
        arity: &'a [u8],
    ) -> Result<(), LineFault>
        requires said { text_form text.now ≡ line_form line }
        requires kept { IsKept (line_form line) }
        requires place { may_follow (last_line self.old) (line_form line) ≡ true }
        requires header { (exported : Bool) × (line_form line ≡ header exported name.now arity.now) }
        ensures kept { (names : List (List ℕ)) → Gives (λ _. self.new) result (keeping names self.old (line_form line.entry)) }
        ensures err { OnErr result (self.new ≡ self.old) }
    {
        if self.functions.len() >= MOST_FUNCTIONS {
            return Err(LineFault::TooManyFunctions);
        }
        if is_given(&self.functions, name, arity) {
            return Err(LineFault::Duplicate);
        }
        self.lines.push(text)?;
        if self.functions.push((name, arity)).is_err() {
            let _ = self.lines.pop();
            return Err(LineFault::NoMemory);
        }
        self.labels.clear();
        self.last = Some(line);
        Ok(())
    }

    fn keep_label(
        &mut self,
        text: &'a [u8],
        line: WrittenLine<'a>,
        name: &'a [u8],
    ) -> Result<(), LineFault>
        requires said { text_form text.now ≡ line_form line }
        requires kept { IsKept (line_form line) }
        requires place { may_follow (last_line self.old) (line_form line) ≡ true }
        requires label { line_form line ≡ label name.now }
        ensures kept { (names : List (List ℕ)) → Gives (λ _. self.new) result (keeping names self.old (line_form line.entry)) }
        ensures err { OnErr result (self.new ≡ self.old) }
    {
        if is_among(&self.labels, name) {
            return Err(LineFault::Duplicate);
        }
        self.lines.push(text)?;
        if add_label(&mut self.labels, name).is_err() {
            let _ = self.lines.pop();
            return Err(LineFault::NoMemory);
        }
        self.last = Some(line);
        Ok(())
    }

    fn keep_other(&mut self, text: &'a [u8], line: WrittenLine<'a>) -> Result<(), LineFault>
        requires said { text_form text.now ≡ line_form line }
        requires kept { IsKept (line_form line) }
        requires place { may_follow (last_line self.old) (line_form line) ≡ true }
        requires other { (headers_in (line_form line ∷ []) ≡ []) × ((labels : List (List ℕ)) → labels_after labels (line_form line) ≡ labels) }
        ensures ok { OnOk result (self.new ≡ self.old ++ line_form line.entry ∷ []) }
        ensures err { IfErr result (λ fault. (fault ≡ LineFault.NoMemory) × (self.new ≡ self.old)) }
    {
        self.lines.push(text)?;
        self.last = Some(line);
        Ok(())
    }

    fn keep(&mut self, text: &'a [u8], line: WrittenLine<'a>) -> Result<(), LineFault>
        requires said { text_form text.now ≡ line_form line }
        requires kept { IsKept (line_form line) }
        requires place { may_follow (last_line self.old) (line_form line) ≡ true }
        ensures kept { (names : List (List ℕ)) → Gives (λ _. self.new) result (keeping names self.old (line_form line.entry)) }
        ensures err { OnErr result (self.new ≡ self.old) }
    {
        match line {
            WrittenLine::Header { name, arity, .. } => self.keep_header(text, line, name, arity),
            WrittenLine::Label { name } => self.keep_label(text, line, name),
            WrittenLine::End => self.keep_end(text),
            WrittenLine::Title { .. } => self.keep_other(text, line),
            WrittenLine::Instr(_) => self.keep_other(text, line),
        }
    }

    fn keep_end(&mut self, text: &'a [u8]) -> Result<(), LineFault>
        requires said { text_form text.now ≡ end }
        requires place { may_follow (last_line self.old) end ≡ true }
        ensures kept { (names : List (List ℕ)) → Gives (λ _. self.new) result (keeping names self.old end) }
        ensures err { OnErr result (self.new ≡ self.old) }
    {
        if !is_short(&self.lines) {
            return Err(LineFault::TooLong);
        }
        self.keep_other(text, WrittenLine::End)
    }

    /// Reads the next line, whose text is without its line feed. Its new atoms get the next numbers, in order.
    ///
    /// It takes memory. After a fault the lines are those before, and the names may be more.
    pub fn line(&mut self, names: &mut Names, text: &'a [u8]) -> Result<(), LineFault>
        ensures read { Gives (λ _. (names.new, self.new)) result (line_step names.old self.old text.now) }
        ensures err { OnErr result (self.new ≡ self.old) }
        ensures grown { Extends names.old names.new }
        ensures sound { IsNames names.new }
    {
        // So the proof knows what a table keeps.
        let _ = names.text(AtomId::TRUE);
        let line = self.next_line(text)?;
        add_atoms(names, &line)?;
        self.keep(text, line)
    }

    /// The function name that a text has as the line behind these: as the header of an exported function, or as an
    /// external call. The names hold its atoms once `line` has answered, unless that was for want of room or of memory.
    pub fn counted(&self, names: &Names, text: &[u8]) -> Option<Mfa>
        ensures { result ≡ counted_of names.now self.now text.now }
    {
        match split_line(text) {
            None => None,
            Some(line) => counted_name(names, title_of(&self.lines).0, &line),
        }
    }

    /// The module that the lines say. The names hold their atoms.
    ///
    /// It takes memory.
    pub fn finish(self, alloc: Global, names: &Names) -> Result<Module, FinishFault>
        requires { IsTitled self }
        ensures ok { IfOk result (λ m. m ≡ module_of names.now self.entry) }
        ensures settled { OnOk result (unsettled_line self.entry ≡ None) }
        ensures missing { IfErr result (IsMissing self.entry) }
    {
        let ModuleReader {
            lines,
            functions,
            labels,
            last: _,
        } = self;
        // Each function gets a table of its labels, so these are not held beside it.
        drop(labels);
        settled_module(alloc, names, &functions, &lines)
    }
}
