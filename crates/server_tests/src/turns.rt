//! Processes that run to their ends.

ghost use Rattle.std.specs.Prelude.{◌≡◌, ◌<◌, ◌^◌, [], IfOk, IfSome, length};
ghost use Rattle.mod_core.specs.Module.{IsModule};
ghost use Rattle.server_core.specs.CommandTable.{AreTexts, IsOfText};
ghost use Rattle.machine_core.specs.Process.{Words, process_of};

use crate::instrs::{Arg, Step, args_of, code_of, lines_of};
use machine_core::*;
use mod_core::{Function, FunctionList, InstrList, Module, ModuleList, validate};
use server_core::{Cmd, ModRef, RefList, Server};
use std::alloc::Global;
use std::process::Abort;
use term_core::{AtomId, Mfa, NoMemory, TermList, read_image};

/// The module, its function and a name that nothing has.
const M: AtomId = AtomId(3);

const MAIN: AtomId = AtomId(4);

/// A persistent term: its key, and the words of its image.
#[derive(Clone, Copy)]
struct Put {
    key: u32,
    words: &'static [u64],
}

/// The image of `{1}`: a tuple of one term, and the integer 1.
const TUPLE: &[u64] = &[19, 17];

/// The image of 7.
const SEVEN: &[u64] = &[113];

/// The turns of `m:main`, with these persistent terms, arguments and code.
#[derive(Clone, Copy)]
struct Case<'a> {
    name: &'a str,
    puts: &'a [Put],
    args: &'a [Arg],
    code: &'a [Step],
    prints: &'a [Arg],
    turns: u32,
    end: End,
}

/// What a process did up to its end.
#[derive(Drop)]
struct Finished {
    lines: LineList,
    turns: u32,
    end: End,
}

/// The texts to load from: the module `m.1` of the function `main`, or nothing where it is no module.
fn texts_of(arity: u32, code: InstrList, alloc: Global) -> Result<Option<ModuleList>, NoMemory>
    ensures { IfOk result (λ o. IfSome o AreTexts) }
{
    match module_of(arity, code, alloc)? {
        Some(module) => Ok(Some(one_text(module, alloc)?)),
        None => Ok(None),
    }
}

/// The module `m.1` of the function `main`, or nothing where it is no module.
fn module_of(arity: u32, code: InstrList, alloc: Global) -> Result<Option<Module>, NoMemory>
    ensures { IfOk result (λ o. IfSome o IsModule) }
{
    let mut functions = FunctionList::new(alloc);
    functions.push(Function {
        name: MAIN,
        arity,
        exported: true,
        code,
    })?;
    let module = Module {
        name: M,
        version: 1,
        functions,
    };
    if validate(&module) {
        Ok(Some(module))
    } else {
        Ok(None)
    }
}

fn one_text(module: Module, alloc: Global) -> Result<ModuleList, NoMemory>
    requires { IsModule «module» }
    ensures { IfOk result AreTexts }
{
    let mut texts = ModuleList::new(alloc);
    texts.push(module)?;
    Ok(texts)
}

fn load_command(alloc: Global) -> Result<Cmd, NoMemory>
    ensures { IfOk result IsOfText }
{
    let mut refs = RefList::new(alloc);
    refs.push(ModRef {
        name: M,
        version: 1,
    })?;
    Ok(Cmd::Load(refs))
}

/// The command that puts the term.
fn put_command(put: Put, alloc: Global) -> Result<Cmd, NoMemory>
    ensures { IfOk result IsOfText }
{
    match read_image(alloc, put.words, 0) {
        Ok(term) => Ok(Cmd::Put {
            key: AtomId(put.key),
            term,
        }),
        Err(_) => Err(NoMemory),
    }
}

/// Loads the module and puts the terms.
fn make(rt: &(impl AllocGlobal + Abort), server: &mut Server, texts: &ModuleList, puts: &[Put])
    requires { AreTexts texts.now }
{
    let load = load_command(rt.alloc()).expect(rt, "a load");
    assert!(rt; server.apply(&load, texts).is_ok());
    for put in puts {
        let cmd = put_command(*put, rt.alloc()).expect(rt, "a put");
        assert!(rt; server.apply(&cmd, texts).is_ok(), "key {}", put.key);
    }
}

/// A process of `m:main` that has had no turn.
fn process_of_main(args: TermList, alloc: Global) -> Result<Process, NoMemory>
    requires { length args < 2 ^ 32 }
    ensures frames { IfOk result (λ process. (words : Words) → (process_of words process).frames ≡ []) }
    ensures turns { IfOk result (λ process. (words : Words) → (process_of words process).turns ≡ 0) }
{
    let target = Mfa {
        module: M,
        name: MAIN,
        arity: args.len() as u32,
    };
    Process::new(alloc, 0, target, args)
}

/// What a process does that has had no turn. Nothing comes where it has not ended after four turns.
fn run_to_end(
    server: &Server,
    process: Process,
    alloc: Global,
) -> Result<Option<Finished>, NoMemory>
    requires frames { (words : Words) → (process_of words process).frames ≡ [] }
    requires turns { (words : Words) → (process_of words process).turns ≡ 0 }
{
    let mut process = process;
    let mut view = PlainView::new(alloc, server, &process)?;
    let mut lines = LineList::new(alloc);
    for _ in 0..4 {
        let end = turn(alloc, &mut process, &mut view, &mut lines)?;
        if let TurnEnd::Ended(end) = end {
            let turns = process.turns;
            return Ok(Some(Finished { lines, turns, end }));
        }
    }
    Ok(None)
}

/// Loads the module of a case, and puts its terms.
fn prepare(rt: &(impl AllocGlobal + Abort), server: &mut Server, case: Case) {
    assert!(rt; case.args.len() < 16);
    let code = code_of(case.code, rt.alloc()).expect(rt, "code");
    let texts = texts_of(case.args.len() as u32, code, rt.alloc()).expect(rt, "texts");
    make(rt, server, &texts.expect(rt, "a module"), case.puts);
}

/// What the process of a case does. Nothing comes where it has not ended after four turns.
fn run_process(rt: &(impl AllocGlobal + Abort), server: &Server, case: Case) -> Option<Finished> {
    let args = args_of(case.args, rt.alloc()).expect(rt, "arguments");
    assert!(rt; args.len() < 16);
    let process = process_of_main(args, rt.alloc()).expect(rt, "a process");
    run_to_end(server, process, rt.alloc()).expect(rt, "memory")
}

/// Whether the process of a case does what is expected.
fn is_expected_on(rt: &(impl AllocGlobal + Abort), server: &mut Server, case: Case) -> bool {
    prepare(rt, server, case);
    let done = run_process(rt, server, case).expect(rt, "an end");
    is_expected(&done, case, rt.alloc()).expect(rt, "lines")
}

/// The same on a new server, of which nothing else is done here: each further step beside it is dear to prove.
fn does(rt: &(impl AllocGlobal + Abort), case: Case) -> bool {
    let mut server = Server::new(rt.alloc()).expect(rt, "a server");
    is_expected_on(rt, &mut server, case)
}

/// Whether this is what the case expects.
fn is_expected(done: &Finished, case: Case, alloc: Global) -> Result<bool, NoMemory> {
    let lines = lines_of(case.prints, alloc)?;
    let same = done.lines.as_slice() == lines.as_slice();
    Ok(same && done.end == case.end && done.turns == case.turns)
}

const SUM: Case<'static> = Case {
    name: "the worked example",
    puts: &[],
    args: &[],
    code: &[
        Step::Add(Arg::Int(1), Arg::Int(2), 0),
        Step::Print(Arg::Reg(0)),
    ],
    prints: &[Arg::Int(3)],
    turns: 1,
    end: End::Normal,
};

const ELEMENTS: Case<'static> = Case {
    name: "a constant, and an element of an element",
    puts: &[],
    args: &[],
    code: &[
        Step::Move(Arg::Nested, 0),
        Step::Print(Arg::Reg(0)),
        Step::Elem(Arg::Int(2), Arg::Reg(0), 1),
        Step::Print(Arg::Reg(1)),
        Step::Elem(Arg::Int(1), Arg::Reg(1), 2),
        Step::Print(Arg::Reg(2)),
    ],
    prints: &[Arg::Nested, Arg::One, Arg::Int(1)],
    turns: 1,
    end: End::Normal,
};

const KEYS: Case<'static> = Case {
    name: "what keys hold, what others stand for, and a yield",
    puts: &[
        Put {
            key: 10,
            words: SEVEN,
        },
        Put {
            key: 11,
            words: TUPLE,
        },
    ],
    args: &[Arg::One],
    code: &[
        Step::Pget(10, 1),
        Step::Print(Arg::Reg(1)),
        Step::PgetOr(11, Arg::Int(5), 2),
        Step::Yield,
        Step::Print(Arg::Reg(2)),
        Step::PgetOr(12, Arg::Int(5), 3),
        Step::Print(Arg::Reg(3)),
        Step::Elem(Arg::Int(2), Arg::Reg(0), 4),
    ],
    prints: &[Arg::Int(7), Arg::One, Arg::Int(5)],
    turns: 2,
    end: End::Badarg,
};

#[test]
fn processes_run_to_their_ends(rt: HostRuntime) {
    for case in [SUM, ELEMENTS, KEYS] {
        assert!(rt; does(&rt, case), "{}", case.name);
    }
}
