ghost use Rattle.mod_core.specs.HeldNames.{IsModuleHeld};
ghost use Rattle.mod_core.specs.Module.{IsModule};

use crate::modules::module_of;
use mod_core::{Function, Module};
use mod_text::*;
use std::alloc::Global;
use std::process::Abort;
use std::test::Fail;
use term_core::{AtomId, ByteList, NameFault, Names};

fn fault(alloc: Global, text: &str) -> Result<Option<ModFault>, NameFault> {
    let mut names = Names::new(alloc)?;
    Ok(read_module(alloc, &mut names, text.as_bytes(), 2).err())
}

#[test]
fn faults_have_their_cause(rt: HostRuntime) -> Result<(), Fail> {
    let cases = [
        (
            "module m.1\nexport f/0\nmove  1 $0\nend\n",
            ModFault::Syntax { line: 4 },
        ),
        (
            "module m.1\nexport f/0\ncall f/2 $15\nend\n",
            ModFault::Register { line: 4 },
        ),
        (
            "module m.1\nexport f/0\nret 576460752303423488\nend\n",
            ModFault::Int { line: 4 },
        ),
        (
            "module m.1\nexport f/0\nlabel a\nlabel a\nend\n",
            ModFault::Duplicate { line: 5 },
        ),
        (
            "module m.1\nexport f/0\ncall f/1 $0\nend\n",
            ModFault::Label { line: 4 },
        ),
    ];
    for (text, wanted) in cases {
        let fault = fault(rt.alloc(), text)?;
        assert!(rt; fault == Some(wanted), "at {text}");
    }
    Ok(())
}

/// Takes a line, which counts a function by the numbers of its names, or none.
fn take<'a>(
    rt: &impl Abort,
    names: &mut Names,
    reader: &mut ModuleReader<'a>,
    line: (&'a str, Option<(u32, u32, u32)>),
) {
    let (text, wanted) = line;
    assert!(rt; reader.line(names, text.as_bytes()) == Ok(()), "at {text}");
    let counted = reader.counted(names, text.as_bytes());
    let told = counted.map(|to| (to.module.0, to.name.0, to.arity));
    assert!(rt; told == wanted, "at {text}");
}

#[test]
fn exports_and_calls_count(rt: HostRuntime) {
    let mut names = Names::new(rt.alloc()).expect(&rt, "the given names");
    let mut reader = ModuleReader::new(rt.alloc());
    let lines = [
        ("module m.1", None),
        ("export f/2", Some((3, 4, 2))),
        ("call_ext n:f/1 $0", Some((5, 4, 1))),
        ("end", None),
    ];
    for line in lines {
        take(&rt, &mut names, &mut reader, line);
    }
    assert!(rt; reader.is_closed());
    assert_eq!(rt; reader.len(), 4);
}

const TEXT: &str = "module m.2
local f/1
label start
less $0 8 start
move [1,{a,-2}] $1
pget k $2
pget_or k {1,[a]} $1
elem 2 {a,{b}} $0
call f/1 $3
jump past
label past
end
";

/// The same module with the labels of its canonical text.
const CANONICAL: &str = "module m.2
local f/1
label l0
less $0 8 l0
move [1,{a,-2}] $1
pget k $2
pget_or k {1,[a]} $1
elem 2 {a,{b}} $0
call f/1 $3
jump l7
label l7
end
";

/// What its instructions are. The atoms are `m`, `f`, `a`, `k` and `b`, numbered from 3 on.
const CODE: [&str; 7] = [
    "Less { a: Reg(0), b: Const(Int(8)), target: 0 }",
    "Move { from: Const(List(TermList { items: [Int(1), Tuple(TermList { items: [Atom(AtomId(5)), Int(-2)] })] })), to: 1 }",
    "Pget { key: AtomId(6), to: 2 }",
    "PgetOr { key: AtomId(6), other: Const(Tuple(TermList { items: [Int(1), List(TermList { items: [Atom(AtomId(5))] })] })), to: 1 }",
    "Elem { index: Const(Int(2)), from: Const(Tuple(TermList { items: [Atom(AtomId(5)), Tuple(TermList { items: [Atom(AtomId(7))] })] })), to: 0 }",
    "Call { function: 0, at: 3 }",
    "Jump { target: 7 }",
];

/// What a head tells of a function, and how many instructions there are.
fn head_of(function: &Function) -> (AtomId, u32, bool, usize) {
    let code = function.code.len();
    (function.name, function.arity, function.exported, code)
}

fn is_told(module: &Module) -> bool {
    let head = module.functions.get(0).map(|function| head_of(function));
    let functions = module.functions.len() == 1 && head == Some((AtomId(4), 1, false, 7));
    module.name == AtomId(3) && module.version == 2 && functions
}

fn is_read(alloc: Global) -> Result<bool, Fail> {
    let module = module_of(alloc, TEXT)?;
    Ok(is_told(&module))
}

fn instr_text(alloc: Global, module: &Module, place: usize) -> Result<String, Fail> {
    let function = module.functions.get(0).ok_or("a function")?;
    let instr = function.code.get(place).ok_or("an instruction")?;
    Ok(format!(in alloc; "{instr:?}")?)
}

fn shown(alloc: Global, place: usize) -> Result<String, Fail> {
    let module = module_of(alloc, TEXT)?;
    instr_text(alloc, &module, place)
}

#[test]
fn a_module_is_what_its_text_says(rt: HostRuntime) -> Result<(), Fail> {
    assert!(rt; is_read(rt.alloc())?);
    for (place, wanted) in CODE.iter().enumerate() {
        assert!(rt; shown(rt.alloc(), place)?.as_str() == *wanted, "at {place}");
    }
    Ok(())
}

fn text_of(alloc: Global, names: &Names, module: &Module) -> Result<ByteList, Fail>
    requires valid { IsModule «module».now }
    requires held { IsModuleHeld names.now «module».now }
{
    let mut out = ByteList::new(alloc);
    print_module(names, module, &mut out)?;
    Ok(out)
}

fn printed(alloc: Global) -> Result<ByteList, Fail> {
    let mut names = Names::new(alloc)?;
    let module = read_module(alloc, &mut names, TEXT.as_bytes(), 0)?;
    text_of(alloc, &names, &module)
}

#[test]
fn a_printed_module_has_its_own_labels(rt: HostRuntime) -> Result<(), Fail> {
    let out = printed(rt.alloc())?;
    assert!(rt; out.as_slice() == CANONICAL.as_bytes());
    Ok(())
}
