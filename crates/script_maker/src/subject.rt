ghost use Rattle.std.specs.Prelude.{◌≡◌, IfOk, IsTrue, OnOk};
ghost use Rattle.term_core.specs.Names.{is_atom_text, names_with};
ghost use Rattle.script_maker.specs.MadeScript.{made_names, main_of, subject_of, version_of};

use std::alloc::Global;
use term_core::{AtomId, Mfa, Names, NoMemory};

/// What the commands of a loader are about.
#[derive(Clone, Copy, Debug)]
pub struct Subject {
    /// The module whose versions it loads.
    pub module: AtomId,
    /// The key under which it puts terms.
    pub key: AtomId,
}

impl Subject {
    /// That of a loader, which is 0 or 1: `m0` and `k0`, or `m1` and `k1`.
    pub(crate) fn of_loader(loader: u32) -> Subject
        ensures { result ≡ subject_of loader }
    {
        if loader == 0 {
            Subject {
                module: AtomId(3),
                key: AtomId(6),
            }
        } else {
            Subject {
                module: AtomId(7),
                key: AtomId(8),
            }
        }
    }

    /// The function that processes enter.
    pub(crate) fn main(self) -> Mfa
        ensures { result ≡ main_of self }
    {
        Mfa {
            module: self.module,
            name: AtomId(4),
            arity: 0,
        }
    }

    /// The function that tells the version of its module.
    pub(crate) fn version(self) -> Mfa
        ensures { result ≡ version_of self }
    {
        Mfa {
            module: self.module,
            name: AtomId(5),
            arity: 0,
        }
    }
}

fn add_name(names: &mut Names, text: &[u8]) -> Result<(), NoMemory>
    requires { IsTrue (is_atom_text text.now) }
    ensures { OnOk result (names.new ≡ names_with names.old text.now) }
{
    match names.add(text) {
        Ok(_) => Ok(()),
        Err(_) => Err(NoMemory),
    }
}

/// The names of a made script.
pub(crate) fn made_names(alloc: Global) -> Result<Names, NoMemory>
    ensures { IfOk result (λ names. names ≡ made_names) }
{
    let mut names = Names::new(alloc)?;
    add_name(&mut names, b"m0")?;
    add_name(&mut names, b"main")?;
    add_name(&mut names, b"ver")?;
    add_name(&mut names, b"k0")?;
    add_name(&mut names, b"m1")?;
    add_name(&mut names, b"k1")?;
    Ok(names)
}
