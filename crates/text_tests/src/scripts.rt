use script_text::*;
use std::alloc::Global;
use std::test::Fail;
use term_core::{ByteList, CountList};

fn fault(alloc: Global, text: &str) -> Option<ScriptFault> {
    read_script(alloc, text.as_bytes()).err()
}

#[test]
fn other_texts_have_one_fault(rt: HostRuntime) {
    let cases = [
        ("", ScriptFault::Syntax { line: 1 }),
        (
            "beam script 1\nloader\nspawn m:main()\nload m.9\ngo\n",
            ScriptFault::UnknownName { line: 4 },
        ),
        (
            "beam script 1\nmodule m.1\nend\nmodule m.1\nend\ngo\n",
            ScriptFault::Duplicate { line: 4 },
        ),
        (
            "beam script 1\nobserver 1\nobserver 1\nobserver 1\nobserver 1\nobserver 1\ngo\n",
            ScriptFault::Limit {
                line: 6,
                which: Which::Observers,
            },
        ),
    ];
    for (text, wanted) in cases {
        assert_eq!(rt; fault(rt.alloc(), text), Some(wanted), "at {text}");
    }
}

// Atoms are numbered as they appear, from 3 on; `ok` is 2.
const SCRIPT: &str = "beam script 1
module m.1
end
observer 16
observer 1
loader
load m.1
delete n
put k {1,[ok,-2,x]}
erase k
loader
trace m:f/15 off
spawn m:f({1,2},[],{y,[x]},-7)
go
";

fn observers_of(alloc: Global, text: &str) -> Result<CountList, Fail> {
    Ok(read_script(alloc, text.as_bytes())?.observers)
}

fn command_text(
    alloc: Global,
    script: &Script,
    loader: usize,
    place: usize,
) -> Result<String, Fail> {
    let block = script.loaders.get(loader).ok_or("a block")?;
    let command = block.get(place).ok_or("a command")?;
    Ok(format!(in alloc; "{command:?}")?)
}

// The command of a loader, as it is shown.
fn shown(alloc: Global, loader: usize, place: usize) -> Result<String, Fail> {
    let script = read_script(alloc, SCRIPT.as_bytes())?;
    command_text(alloc, &script, loader, place)
}

#[test]
fn a_script_has_its_observers_and_commands(rt: HostRuntime) -> Result<(), Fail> {
    assert!(rt; observers_of(rt.alloc(), SCRIPT)?.as_slice() == [16, 1].as_slice());
    let cases = [
        (
            0,
            0,
            "Load(Items { items: [ModRef { name: AtomId(3), version: 1 }] })",
        ),
        (0, 1, "Delete(AtomId(4))"),
        (
            0,
            2,
            "Put { key: AtomId(5), term: Tuple(TermList { items: [Int(1), List(TermList { items: [Atom(AtomId(2)), Int(-2), Atom(AtomId(6))] })] }) }",
        ),
        (0, 3, "Erase(AtomId(5))"),
        (
            1,
            0,
            "Trace { target: Mfa { module: AtomId(3), name: AtomId(7), arity: 15 }, on: false }",
        ),
        (
            1,
            1,
            "Spawn { target: Mfa { module: AtomId(3), name: AtomId(7), arity: 4 }, args: TermList { items: [Tuple(TermList { items: [Int(1), Int(2)] }), List(TermList { items: [] }), Tuple(TermList { items: [Atom(AtomId(8)), List(TermList { items: [Atom(AtomId(6))] })] }), Int(-7)] } }",
        ),
    ];
    for (loader, place, wanted) in cases {
        let shown = shown(rt.alloc(), loader, place)?;
        assert!(rt; shown.as_str() == wanted, "at {loader} {place}");
    }
    Ok(())
}

#[test]
fn faults_have_lines(rt: HostRuntime) -> Result<(), Fail> {
    let which = Which::Observers;
    let cases = [
        (
            ScriptFault::Limit { line: 10, which },
            "refused 10 limit observers",
        ),
        (
            ScriptFault::UnknownName { line: 4 },
            "refused 4 unknown_name",
        ),
        (ScriptFault::NoMemory, ""),
    ];
    for (cause, line) in cases {
        let mut text = ByteList::new(rt.alloc());
        print_fault(cause, &mut text)?;
        assert!(rt; text.as_slice() == line.as_bytes(), "at {line}");
    }
    Ok(())
}
