ghost use Rattle.script_core.specs.Sound.{IsScript};

use crate::loaded::{Look, is_shown};
use run_log::{MfaList, exported_functions, exports_of, snapshot_of};
use script_core::Script;
use script_text::read_script;
use server_core::Server;
use std::alloc::Global;
use std::test::Fail;
use term_core::{ByteList, Mfa, Names, NoMemory, print_atom, print_number};

/// Two versions of m, which share a function, and a module whose name stands before m.
const TWO_MODULES: &str = "beam script 1
module m.1
export b/1
export a/0
local c/0
end
module m.2
export a/10
export a/2
export a/0
end
module b.1
export z/0
end
go
";

/// Names in an order that is neither that of their numbers nor that of the alphabet: capitals stand before the underscore, and this before small letters.
const ORDERED_BY_BYTES: &str = "beam script 1
module ma.1
export f/0
end
module m_.1
export f/0
end
module mB.1
export f/0
end
module m.1
export f/0
export e/0
end
go
";

fn print_function(names: &Names, to: Mfa, out: &mut ByteList) -> Result<(), NoMemory> {
    print_atom(names, to.module, out)?;
    out.push(b':')?;
    print_atom(names, to.name, out)?;
    out.push(b'/')?;
    print_number(to.arity as u64, out)
}

fn lines_of(alloc: Global, names: &Names, functions: &[Mfa]) -> Result<ByteList, Fail> {
    let mut out = ByteList::new(alloc);
    for to in functions {
        print_function(names, *to, &mut out)?;
        out.push(b'\n')?;
    }
    Ok(out)
}

fn functions_of(alloc: Global, script: &Script) -> Result<ByteList, Fail>
    requires { IsScript script.now }
{
    let functions = exported_functions(alloc, script)?;
    lines_of(alloc, &script.names, functions.as_slice())
}

/// The exported functions of a script, a line each.
fn listed(alloc: Global, text: &str) -> Result<ByteList, Fail> {
    let script = read_script(alloc, text.as_bytes())?;
    functions_of(alloc, &script)
}

#[test]
fn functions_stand_in_order_each_once(rt: HostRuntime) -> Result<(), Fail> {
    let cases = [
        ("beam script 1\ngo\n", ""),
        (TWO_MODULES, "b:z/0\nm:a/0\nm:a/2\nm:a/10\nm:b/1\n"),
        (ORDERED_BY_BYTES, "m:e/0\nm:f/0\nmB:f/0\nm_:f/0\nma:f/0\n"),
    ];
    for (text, expected) in cases {
        let listed = listed(rt.alloc(), text)?;
        assert_eq!(rt; listed.as_slice(), expected.as_bytes());
    }
    Ok(())
}

/// Prints the exports, each with the serial of its instance.
fn tell(names: &Names, exports: &[(Mfa, u64)], out: &mut ByteList) -> Result<(), NoMemory> {
    for (to, serial) in exports {
        print_function(names, *to, out)?;
        out.push(b' ')?;
        print_number(*serial, out)?;
        out.push(b'\n')?;
    }
    Ok(())
}

fn snapshot(
    alloc: Global,
    names: &Names,
    server: &Server,
    functions: &MfaList,
    out: &mut ByteList,
) -> Result<(), NoMemory> {
    let shot = snapshot_of(alloc, server, functions)?;
    print_number(shot.generation, out)?;
    out.push(b'\n')?;
    tell(names, shot.exports.as_slice(), out)
}

/// The exports of a server, and what an observer sees: a generation and its exports.
pub fn seen(alloc: Global, script: &Script, server: &Server) -> Result<ByteList, NoMemory>
    requires { IsScript script.now }
{
    let functions = exported_functions(alloc, script)?;
    let exports = exports_of(alloc, server, &functions)?;
    let mut out = ByteList::new(alloc);
    tell(&script.names, exports.as_slice(), &mut out)?;
    snapshot(alloc, &script.names, server, &functions, &mut out)?;
    Ok(out)
}

#[test]
fn exports_of_current_code_are_seen(rt: HostRuntime) {
    let expected = "m:a/0 1\nm:a/2 1\nm:a/10 1\n1\nm:a/0 1\nm:a/2 1\nm:a/10 1\n";
    assert!(rt; is_shown(&rt, TWO_MODULES, 2, Look::Exports(expected)));
}
