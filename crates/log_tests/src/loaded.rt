//! Servers that have loaded a module of a script, and what is looked for there.

ghost use Rattle.script_core.specs.Sound.{IsScript};
ghost use Rattle.server_core.specs.CommandTable.{AreTexts};

use crate::exports::seen;
use crate::spans::is_so;
use mod_core::ModuleList;
use script_core::Script;
use script_text::read_script;
use server_core::{Cmd, ModRef, RefList, Server};
use span_check::Watch;
use std::alloc::Global;
use std::process::Abort;
use term_core::{AtomId, NoMemory};

/// The first atom of a script after the three given ones.
const M: AtomId = AtomId(3);

/// What is looked for.
#[derive(Clone, Copy)]
pub enum Look<'a> {
    /// these lines of exports
    Exports(&'a str),
    /// a process that prints 1 and this number, whose frame is of the instance after so many turns, if one is told
    Turns(i64, Option<(u32, u64)>),
}

fn load(rt: &(impl AllocGlobal + Abort), server: &mut Server, version: u32, texts: &ModuleList)
    requires { AreTexts texts.now }
{
    let refs = RefList::from_slice(rt.alloc(), &[ModRef { name: M, version }]);
    let load = Cmd::Load(refs.expect(rt, "a list"));
    assert!(rt; server.apply(&load, texts).is_ok());
}

fn shows(alloc: Global, script: &Script, server: &Server, look: Look) -> Result<bool, NoMemory>
    requires { IsScript script.now }
{
    match look {
        Look::Exports(expected) => {
            Ok(seen(alloc, script, server)?.as_slice() == expected.as_bytes())
        }
        Look::Turns(number, None) => is_so(alloc, server, number, &[]),
        Look::Turns(number, Some((turn, serial))) => {
            is_so(alloc, server, number, &[Watch { turn, serial }])
        }
    }
}

fn shows_then(
    rt: &(impl AllocGlobal + Abort),
    script: &Script,
    server: &mut Server,
    version: u32,
    look: Look,
) -> bool
    requires { IsScript script.now }
{
    load(rt, server, version, &script.modules);
    shows(rt.alloc(), script, server, look).expect(rt, "memory")
}

/// On a new server, of which nothing else is done here: each further step beside it is dear to prove.
fn shows_when_loaded(
    rt: &(impl AllocGlobal + Abort),
    script: &Script,
    version: u32,
    look: Look,
) -> bool
    requires { IsScript script.now }
{
    let mut server = Server::new(rt.alloc()).expect(rt, "a server");
    shows_then(rt, script, &mut server, version, look)
}

/// Whether a server that has loaded a version of the module whose name is the first of the script shows this.
pub fn is_shown(rt: &(impl AllocGlobal + Abort), text: &str, version: u32, look: Look) -> bool {
    let script = read_script(rt.alloc(), text.as_bytes()).expect(rt, "a script");
    shows_when_loaded(rt, &script, version, look)
}
