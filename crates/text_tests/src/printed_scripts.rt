ghost use Rattle.std.specs.Prelude.{IfOk};
ghost use Rattle.script_text.specs.Canonical.{IsOfSomeText};

use script_text::*;
use std::alloc::{AllocError, Global};
use std::test::Fail;
use term_core::{AtomId, ByteList};

fn read(alloc: Global, text: &[u8]) -> Result<Script, ScriptFault>
    ensures { IfOk result IsOfSomeText }
{
    read_script(alloc, text)
}

/// What the print of a script answers, and what stands then behind a dash, with it.
fn print_behind_a_dash(
    alloc: Global,
    script: &Script,
) -> Result<(Result<(), PrintFault>, ByteList), Fail>
    requires { IsOfSomeText script.now }
{
    let mut out = ByteList::new(alloc);
    out.push(b'-')?;
    let answer = print_script(script, &mut out);
    Ok((answer, out))
}

/// The same of the script of a text.
fn printed(alloc: Global, text: &str) -> Result<(Result<(), PrintFault>, ByteList), Fail> {
    let script = read(alloc, text.as_bytes())?;
    print_behind_a_dash(alloc, &script)
}

/// Whether the script is printed so.
fn is_printed_as(alloc: Global, text: &str, canonical: &str) -> Result<bool, Fail> {
    let (answer, out) = printed(alloc, text)?;
    let bytes = out.as_slice();
    let dash = answer.is_ok() && bytes.first() == Some(&b'-');
    Ok(dash && bytes.get(1..) == Some(canonical.as_bytes()))
}

fn have_same_names(first: &Script, second: &Script) -> bool {
    for number in 0..4097u32 {
        if first.names.text(AtomId(number)) != second.names.text(AtomId(number)) {
            return false;
        }
    }
    true
}

/// Whether two scripts have the same names, modules, observers and commands.
fn are_same(alloc: Global, first: &Script, second: &Script) -> Result<bool, Fail> {
    let shown = format!(in alloc; "{:?} {:?}", first.modules, first.loaders)?;
    let other = format!(in alloc; "{:?} {:?}", second.modules, second.loaders)?;
    let observers = first.observers.as_slice() == second.observers.as_slice();
    Ok(observers && shown == other && have_same_names(first, second))
}

/// Whether two texts are read as equal scripts.
fn read_same(alloc: Global, text: &str, other: &str) -> Result<bool, Fail> {
    let first = read(alloc, text.as_bytes())?;
    let second = read(alloc, other.as_bytes())?;
    are_same(alloc, &first, &second)
}

/// Whether the script of a text equals its copy.
fn is_copied(alloc: Global, text: &str) -> Result<bool, Fail> {
    let script = read(alloc, text.as_bytes())?;
    let copy = script.copy(alloc)?;
    are_same(alloc, &copy, &script)
}

const COMMANDS: &str = "beam script 1
module m.1
export main/0
add 1 2 $0
print $0
end
module m.2
export main/1
pget k $1
pget_or k {none,[k]} $2
elem 1 $2 $3
end
observer 16
observer 3
loader
load m.1
put k {1,[ok,-2]}
put j []
spawn m:main()
loader
load m.2 m.2
trace m:main/1 on
spawn m:main({1,2},[],x)
spawn m:main(-1)
delete m
soft_purge m
check_old m
purge n
erase k
trace m:main/1 off
go
";

// Two labels of one place, one that no instruction goes to, and one behind the last instruction.
const COUNTDOWN: &str = "beam script 1
module m.1
local count/1
label start
label again
eq $0 0 done
sub $0 1 $0
label unused
jump again
label done
local other/0
label done
call count/1 $2
end
loader
load m.1 m.1
spawn m:count(3,{-4})
go
";

const COUNTDOWN_PRINTED: &str = "beam script 1
module m.1
local count/1
label l0
eq $0 0 l3
sub $0 1 $0
jump l0
label l3
local other/0
call count/1 $2
end
loader
load m.1 m.1
spawn m:count(3,{-4})
go
";

#[test]
fn scripts_are_printed(rt: HostRuntime) -> Result<(), Fail> {
    let cases = [
        ("beam script 1\ngo\n", "beam script 1\ngo\n"),
        (
            "beam script 1\nobserver 1\ngo\n",
            "beam script 1\nobserver 1\ngo\n",
        ),
        (COMMANDS, COMMANDS),
        (COUNTDOWN, COUNTDOWN_PRINTED),
    ];
    for (text, canonical) in cases {
        assert!(rt; is_printed_as(rt.alloc(), text, canonical)?, "at {text}");
        assert!(rt; read_same(rt.alloc(), text, canonical)?, "at {text}");
        assert!(rt; is_copied(rt.alloc(), text)?, "at {text}");
    }
    Ok(())
}

const LONG_NAME: &str = "a2345678901234567890123456789012";

/// Appends the piece as often as it fits, so that so many bytes are left.
fn fill(text: &mut String, piece: &str, length: usize, left: usize) -> Result<(), AllocError> {
    for _ in 0..300u32 {
        let rest = length.saturating_sub(text.len());
        if rest.saturating_sub(left) > piece.len() {
            text.push_str(piece)?;
        }
    }
    Ok(())
}

/// The text of a script of so many bytes. Its canonical text has two more, since its label `a` becomes `l0`.
fn text_of_length(alloc: Global, length: usize) -> Result<String, AllocError> {
    let given = "module m.1\nlocal f/0\nlabel a\njump a\nend\n";
    let mut text = format!(in alloc;
        "beam script 1\n{given}module {LONG_NAME}.999999\nend\nloader\n"
    )?;
    let loads = format!(in alloc; " {LONG_NAME}.999999")?;
    let line = format!(in alloc; "load{}\n", loads.as_str().repeat(alloc, 102)?)?;
    fill(&mut text, line.as_str(), length, 20)?;
    fill(
        &mut text,
        "load m.1 m.1 m.1 m.1 m.1 m.1 m.1 m.1 m.1\n",
        length,
        20,
    )?;
    fill(&mut text, "load m.1\n", length, 20)?;
    text.push_str("spawn m:f")?;
    fill(&mut text, "x", length, 5)?;
    text.push_str("()\ngo\n")?;
    Ok(text)
}

/// What the print of a script whose text has so many bytes answers, and what stands then behind a dash, with it.
fn print_long(alloc: Global, length: usize) -> Result<(Result<(), PrintFault>, ByteList), Fail> {
    let text = text_of_length(alloc, length)?;
    printed(alloc, text.as_str())
}

#[test]
fn a_text_may_grow_too_long(rt: HostRuntime) -> Result<(), Fail> {
    let cases = [
        (LONGEST_SCRIPT - 2, Ok(()), LONGEST_SCRIPT + 1),
        (LONGEST_SCRIPT - 1, Err(PrintFault::TooLong), 1),
    ];
    for (length, wanted, left) in cases {
        assert_eq!(rt; text_of_length(rt.alloc(), length)?.len(), length);
        let (answer, out) = print_long(rt.alloc(), length)?;
        assert!(rt; answer == wanted, "at {length}");
        assert_eq!(rt; out.len(), left, "at {length}");
    }
    Ok(())
}
