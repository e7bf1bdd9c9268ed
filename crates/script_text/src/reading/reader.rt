//! What is known of a script after some of its lines, and what the next line adds.

use crate::fault::{ScriptFault, Which};
use crate::reading::adding::{add_counted, command_of, push_command};
use crate::reading::cause::LineCause;
use crate::reading::line::{read_call, read_put, read_refs, read_title, read_trace, read_word};
use crate::reading::naming::{name_atom, name_call, name_put, name_refs, name_trace};
use crate::reading::sets::{FunctionSet, RefSet};
use crate::reading::words::snapshots_of;
use mod_core::ModuleList;
use mod_text::{FinishFault, LineFault, ModuleReader};
use script_core::{
    CommandList, LONGEST_LINE, LoaderList, MOST_LOADERS, MOST_OBSERVERS, MOST_PROCESSES, Script,
    ScriptCmd,
};
use server_core::ModRef;
use std::alloc::Global;
use std::mem;
use term_core::{CountList, Mfa, Names, NoMemory, cut_at};

/// Where the next line stands.
#[derive(Clone, Copy, Debug, PartialEq, Eq)]
pub enum Place {
    /// In front of the head.
    Unread,
    /// Where a module's text may begin.
    Between,
    /// In a module's text.
    Within,
    /// Behind an observer.
    Observing,
    /// In the loader blocks.
    Loading,
    /// Behind `go`.
    Finished,
}

/// What is known after some lines.
#[derive(Drop)]
pub struct ScriptReader<'a> {
    pub names: Names,
    pub modules: ModuleList,
    /// The modules and versions of the titles.
    pub titles: RefSet,
    /// The functions of exports, external calls and spawns.
    pub functions: FunctionSet,
    /// How many snapshots each observer takes.
    pub observers: CountList,
    pub loaders: LoaderList,
    pub processes: usize,
    /// The lines of the module's text that is not closed.
    pub lines: ModuleReader<'a>,
    /// The number of its title's line.
    pub title: usize,
    pub place: Place,
    /// The first line that names what is not there.
    pub unknown: Option<usize>,
}

impl<'a> ScriptReader<'a> {
    ghost use Rattle.std.specs.Prelude.{◌≡◌, ◌+◌, ◌<◌, ◌^◌, length, IfOk, IfSome, OnOk};
    ghost use Rattle.std.specs.List.{list_all};
    ghost use Rattle.term_core.specs.Text.Cuts.{cut_at};
    ghost use Rattle.mod_text.specs.ModuleValue.{IsTitled, unsettled_line};
    ghost use Rattle.mod_text.specs.ModuleValue.{earlier as or_else};
    ghost use Rattle.script_text.specs.Causes.{Gives, GivesText};
    ghost use Rattle.script_text.specs.Sets.{is_among};
    ghost use Rattle.script_text.specs.Reading.{opening, head_step, title_step, counted_step, within_step, text_closed, closed_by, observer_step, between_by, observing_by, block_step, load_step, atom_step, put_step, trace_step, spawn_step, command_step, other_step, line_at, line_judged, text_ended, IsCounted, repeat_cause, script_known};

    /// What is known before the first line.
    pub fn new(alloc: Global) -> Result<ScriptReader<'a>, NoMemory>
        ensures { IfOk result (λ s. s ≡ opening) }
    {
        Ok(ScriptReader {
            names: Names::new(alloc)?,
            modules: ModuleList::new(alloc),
            titles: RefSet::new(alloc),
            functions: FunctionSet::new(alloc),
            observers: CountList::new(alloc),
            loaders: LoaderList::new(alloc),
            processes: 0,
            lines: ModuleReader::new(alloc),
            title: 0,
            place: Place::Unread,
            unknown: None,
        })
    }

    fn take_head(&mut self, text: &[u8]) -> Result<(), LineCause>
        ensures { Gives (λ _. self.new) result (head_step self.old text.now) }
    {
        if text == b"beam script 1".as_slice() {
            self.place = Place::Between;
            Ok(())
        } else {
            Err(LineCause::Syntax)
        }
    }

    /// The title of a module's text, as the line of this number.
    #[tactic(auto, unfolding(crate::specs::Reading::title_step))]
    fn take_title(&mut self, text: &'a [u8], number: usize) -> Result<(), LineCause>
        ensures { Gives (λ _. self.new) result (title_step self.old number text.now) }
    {
        let title = read_title(text).ok_or(LineCause::Syntax)?;
        self.lines.line(&mut self.names, text)?;
        let name = self.names.get(title.name).ok_or(LineCause::Syntax)?;
        self.titles.add(ModRef {
            name,
            version: title.version,
        })?;
        self.title = number;
        self.place = Place::Within;
        Ok(())
    }

    /// The line of this number names what is not there; an earlier one stays.
    fn note_unknown(&mut self, number: usize)
        ensures { self.new ≡ record self.old { unknown = or_else self.old.unknown (Some number) } }
    {
        if self.unknown.is_none() {
            self.unknown = Some(number);
        }
    }

    /// The module of a text that is closed, or the first line of it that names what is not there.
    fn close_text(&mut self, alloc: Global) -> Result<(), NoMemory>
        requires titled { IsTitled self.old.lines }
        requires counted { self.old.title + length self.old.lines < 2 ^ 64 }
        ensures { OnOk result (self.new ≡ closed_by self.old (unsettled_line self.old.lines)) }
    {
        let lines = mem::replace(&mut self.lines, ModuleReader::new(alloc));
        match lines.finish(alloc, &self.names) {
            Ok(module) => self.modules.push(module)?,
            Err(FinishFault::Missing { number }) => self.note_unknown(self.title + number),
            Err(FinishFault::NoMemory) => return Err(NoMemory),
        }
        self.place = Place::Between;
        Ok(())
    }

    /// Closes a module's text behind its last line.
    fn close_ended(&mut self, alloc: Global) -> Result<(), NoMemory>
        requires titled { IsTitled self.old.lines }
        requires counted { self.old.title + length self.old.lines < 2 ^ 64 }
        ensures { OnOk result (self.new ≡ text_closed self.old) }
    {
        if self.lines.is_closed() {
            self.close_text(alloc)
        } else {
            Ok(())
        }
    }

    /// Counts the line of a module's text that was read last, and closes the text behind its end.
    fn count_code(&mut self, alloc: Global, text: &[u8]) -> Result<(), LineCause>
        requires titled { IsTitled self.old.lines }
        requires counted { self.old.title + length self.old.lines < 2 ^ 64 }
        ensures { Gives (λ _. self.new) result (counted_step self.old text.now) }
    {
        let counted = self.lines.counted(&self.names, text);
        add_counted(&mut self.functions, counted)?;
        self.close_ended(alloc)?;
        Ok(())
    }

    /// Why a line was refused that gives something again: its function may be one too many besides.
    fn repeat_cause(&self, repeated: Option<Mfa>) -> LineCause
        ensures { result ≡ repeat_cause self.now.functions repeated }
    {
        match repeated {
            Some(function) if self.functions.is_over(function) => LineCause::Limit(Which::Exports),
            _ => LineCause::Duplicate,
        }
    }

    /// A line of a module's text, behind its title.
    fn take_code(&mut self, alloc: Global, text: &'a [u8]) -> Result<(), LineCause>
        requires titled { IsTitled self.old.lines }
        requires counted { self.old.title + length self.old.lines + 1 < 2 ^ 64 }
        ensures { Gives (λ _. self.new) result (within_step self.old text.now) }
    {
        // What is given again has its names already, so it is counted before the line is read.
        let repeated = self.lines.counted(&self.names, text);
        match self.lines.line(&mut self.names, text) {
            Ok(()) => self.count_code(alloc, text),
            Err(LineFault::Duplicate) => Err(self.repeat_cause(repeated)),
            Err(fault) => Err(LineCause::from(fault)),
        }
    }

    /// An observer, behind the word of its line.
    #[tactic(auto, unfolding(crate::specs::Reading::observer_step))]
    fn take_observer(&mut self, text: &[u8]) -> Result<(), LineCause>
        ensures { Gives (λ _. self.new) result (observer_step self.old text.now) }
    {
        let count = snapshots_of(text).ok_or(LineCause::Syntax)?;
        if self.observers.len() >= MOST_OBSERVERS {
            return Err(LineCause::Limit(Which::Observers));
        }
        self.observers.push(count)?;
        self.place = Place::Observing;
        Ok(())
    }

    /// A title or an observer, as the line of this number.
    fn take_between(&mut self, text: &'a [u8], number: usize) -> Result<(), LineCause>
        ensures { Gives (λ _. self.new) result (between_by self.old number text.now (cut_at 32 text.now)) }
    {
        match cut_at(text, b' ') {
            Some((word, rest)) if word == b"observer".as_slice() => self.take_observer(rest),
            _ => self.take_title(text, number),
        }
    }

    /// A line behind an observer.
    fn take_observing(&mut self, text: &[u8]) -> Result<(), LineCause>
        ensures { Gives (λ _. self.new) result (observing_by self.old (cut_at 32 text.now)) }
    {
        match cut_at(text, b' ') {
            Some((word, rest)) if word == b"observer".as_slice() => self.take_observer(rest),
            _ => Err(LineCause::Syntax),
        }
    }

    fn start_block(&mut self, alloc: Global) -> Result<(), LineCause>
        ensures { Gives (λ _. self.new) result (block_step self.old) }
    {
        if self.loaders.len() >= MOST_LOADERS {
            return Err(LineCause::Limit(Which::Loaders));
        }
        self.loaders.push(CommandList::new(alloc))?;
        self.place = Place::Loading;
        Ok(())
    }

    fn are_given(&self, refs: &[ModRef]) -> bool
        ensures { result ≡ list_all (is_among self.now.titles) refs.now }
    {
        refs.iter().all(|to| self.titles.has(*to))
    }

    /// A load, as the line of this number.
    #[tactic(auto, unfolding(crate::specs::Reading::load_step))]
    fn take_load(&mut self, alloc: Global, text: &[u8], number: usize) -> Result<(), LineCause>
        ensures { Gives (λ _. self.new) result (load_step self.old number text.now) }
    {
        let refs = read_refs(alloc, text)?;
        let refs = name_refs(alloc, &mut self.names, refs.as_slice())?;
        if !self.are_given(refs.as_slice()) {
            self.note_unknown(number);
        }
        push_command(alloc, &mut self.loaders, ScriptCmd::Load(refs))?;
        Ok(())
    }

    /// A command of one atom, by its word.
    #[tactic(auto, unfolding(crate::specs::Reading::atom_step))]
    fn take_atom(&mut self, alloc: Global, word: &[u8], text: &[u8]) -> Result<(), LineCause>
        ensures { Gives (λ _. self.new) result (atom_step self.old word.now text.now) }
    {
        let command = read_word(word).ok_or(LineCause::Syntax)?;
        let atom = name_atom(&mut self.names, text)?;
        push_command(alloc, &mut self.loaders, command_of(command, atom))?;
        Ok(())
    }

    /// A put of a term under a key.
    #[tactic(auto, unfolding(crate::specs::Reading::put_step))]
    fn take_put(&mut self, alloc: Global, text: &[u8]) -> Result<(), LineCause>
        ensures { Gives (λ _. self.new) result (put_step self.old text.now) }
    {
        let put = read_put(alloc, text)?;
        let (key, term) = name_put(alloc, &mut self.names, put)?;
        push_command(alloc, &mut self.loaders, ScriptCmd::Put { key, term })?;
        Ok(())
    }

    /// A breakpoint that is set or taken away.
    #[tactic(auto, unfolding(crate::specs::Reading::trace_step))]
    fn take_trace(&mut self, alloc: Global, text: &[u8]) -> Result<(), LineCause>
        ensures { Gives (λ _. self.new) result (trace_step self.old text.now) }
    {
        let trace = read_trace(text).ok_or(LineCause::Syntax)?;
        let target = name_trace(&mut self.names, trace)?;
        let on = trace.on;
        push_command(alloc, &mut self.loaders, ScriptCmd::Trace { target, on })?;
        Ok(())
    }

    #[tactic(auto, unfolding(crate::specs::Reading::spawn_step))]
    fn take_spawn(&mut self, alloc: Global, text: &[u8]) -> Result<(), LineCause>
        ensures { Gives (λ _. self.new) result (spawn_step self.old text.now) }
    {
        let call = read_call(alloc, text)?;
        let (target, args) = name_call(alloc, &mut self.names, &call)?;
        self.functions.add(target)?;
        if self.processes >= MOST_PROCESSES {
            return Err(LineCause::Limit(Which::Processes));
        }
        self.processes += 1;
        push_command(alloc, &mut self.loaders, ScriptCmd::Spawn { target, args })?;
        Ok(())
    }

    /// A command, as the line of this number.
    fn take_command(&mut self, alloc: Global, text: &[u8], number: usize) -> Result<(), LineCause>
        ensures { Gives (λ _. self.new) result (command_step self.old number text.now) }
    {
        match cut_at(text, b' ') {
            None => Err(LineCause::Syntax),
            Some((word, rest)) => {
                if word == b"load".as_slice() {
                    self.take_load(alloc, rest, number)
                } else if word == b"spawn".as_slice() {
                    self.take_spawn(alloc, rest)
                } else if word == b"trace".as_slice() {
                    self.take_trace(alloc, rest)
                } else if word == b"put".as_slice() {
                    self.take_put(alloc, rest)
                } else {
                    self.take_atom(alloc, word, rest)
                }
            }
        }
    }

    /// A line between module texts, or behind them.
    fn take_other(&mut self, alloc: Global, text: &'a [u8], number: usize) -> Result<(), LineCause>
        ensures { Gives (λ _. self.new) result (other_step self.old number text.now) }
    {
        if text == b"loader".as_slice() {
            self.start_block(alloc)
        } else if text == b"go".as_slice() {
            self.place = Place::Finished;
            Ok(())
        } else {
            match self.place {
                Place::Between => self.take_between(text, number),
                Place::Observing => self.take_observing(text),
                _ => self.take_command(alloc, text, number),
            }
        }
    }

    /// The line of this number, by the place where it stands.
    fn take_line(&mut self, alloc: Global, text: &'a [u8], number: usize) -> Result<(), LineCause>
        requires counted { IsCounted self.old number self.old.place }
        requires few { number + 1 < 2 ^ 64 }
        ensures { Gives (λ _. self.new) result (line_at self.old number text.now self.old.place) }
    {
        match self.place {
            Place::Unread => self.take_head(text),
            Place::Between | Place::Observing | Place::Loading => {
                self.take_other(alloc, text, number)
            }
            Place::Within => self.take_code(alloc, text),
            Place::Finished => Err(LineCause::Syntax),
        }
    }

    /// The line of this number. Behind it the text goes on or ends.
    pub fn judge_line(
        &mut self,
        alloc: Global,
        text: &'a [u8],
        number: u32,
        is_last: bool,
    ) -> Result<(), ScriptFault>
        requires { IsCounted self.old number self.old.place }
        ensures { GivesText (λ _. self.new) result (line_judged self.old number is_last text.now) }
    {
        if text.len() > LONGEST_LINE {
            return Err(ScriptFault::LineTooLong { line: number });
        }
        if is_last && text != b"go".as_slice() {
            return Err(ScriptFault::Syntax { line: number });
        }
        match self.take_line(alloc, text, number as usize) {
            Ok(()) => Ok(()),
            Err(cause) => Err(cause.at(number)),
        }
    }

    /// The script, where nothing that is named is lacking.
    fn known_script(self) -> Result<Script, ScriptFault>
        requires { IfSome self.unknown (λ line. line < 2 ^ 32) }
        ensures { GivesText (λ s. s) result (script_known self.entry self.entry.unknown) }
    {
        match self.unknown {
            Some(unknown) => Err(ScriptFault::UnknownName {
                line: unknown as u32,
            }),
            None => Ok(Script {
                names: self.names,
                modules: self.modules,
                observers: self.observers,
                loaders: self.loaders,
            }),
        }
    }

    /// The end of the text, with what stands behind the last line feed. The next line would have this number.
    pub fn end_text(self, tail: &[u8], number: u32) -> Result<Script, ScriptFault>
        requires { IfSome self.unknown (λ line. line < 2 ^ 32) }
        ensures { GivesText (λ s. s) result (text_ended self.entry number tail.now) }
    {
        if tail.len() > LONGEST_LINE {
            return Err(ScriptFault::LineTooLong { line: number });
        }
        if !tail.is_empty() {
            return Err(ScriptFault::Syntax { line: number });
        }
        match self.place {
            Place::Finished => self.known_script(),
            _ => Err(ScriptFault::Syntax { line: number }),
        }
    }
}
