//! The text of a reply, and of the generation that a command made.

ghost use Rattle.std.specs.Prelude.{◌≡◌, ◌∷◌, ◌++◌, OnOk, codes};
ghost use Rattle.std.specs.Fmt.{decimal};
ghost use Rattle.std.specs.Io.{StartsWith};
ghost use Rattle.run_log.specs.Report.{limit_text, reply_text, published_text};

use crate::rendering::name::write_atoms;
use server_core::{Limit, Linger, Reply};
use term_core::{ByteList, Names, NoMemory, print_atom, print_number};

fn write_limit(limit: Limit, out: &mut ByteList) -> Result<(), NoMemory>
    ensures ok { OnOk result (out.new ≡ out.old ++ limit_text limit) }
    ensures kept { StartsWith out.new out.old }
{
    match limit {
        Limit::Instances => out.extend_from_slice(b"instances"),
        Limit::Keys => out.extend_from_slice(b"keys"),
        Limit::Areas => out.extend_from_slice(b"areas"),
    }
}

/// Appends the text of a reply. After a refusal a part of it may stand.
pub fn write_reply(names: &Names, reply: &Reply, out: &mut ByteList) -> Result<(), NoMemory>
    ensures ok { OnOk result (out.new ≡ out.old ++ reply_text names.now reply.now) }
    ensures kept { StartsWith out.new out.old }
{
    match reply {
        Reply::Ok => out.extend_from_slice(b"ok"),
        Reply::True => out.extend_from_slice(b"true"),
        Reply::False => out.extend_from_slice(b"false"),
        Reply::FalseBy(linger) => write_linger(*linger, out),
        Reply::NotPurged(modules) => {
            out.extend_from_slice(b"not_purged [")?;
            write_atoms(names, modules, out)?;
            out.push(b']')
        }
        Reply::Duplicated(name) => {
            out.extend_from_slice(b"duplicated ")?;
            print_atom(names, *name, out)
        }
        Reply::SystemLimit(limit) => {
            out.extend_from_slice(b"system_limit ")?;
            write_limit(*limit, out)
        }
    }
}

fn write_linger(linger: Linger, out: &mut ByteList) -> Result<(), NoMemory>
    ensures ok { OnOk result (out.new ≡ out.old ++ (codes "false " ++ decimal linger.process ++ 32 ∷ decimal linger.turn)) }
    ensures kept { StartsWith out.new out.old }
{
    out.extend_from_slice(b"false ")?;
    print_number(u64::from(linger.process), out)?;
    out.push(b' ')?;
    print_number(u64::from(linger.turn), out)
}

/// Appends `@g` for the generation that a command made, or `-`. After a refusal a part of it may stand.
pub fn write_published(published: Option<u64>, out: &mut ByteList) -> Result<(), NoMemory>
    ensures ok { OnOk result (out.new ≡ out.old ++ published_text published) }
    ensures kept { StartsWith out.new out.old }
{
    match published {
        None => out.push(b'-'),
        Some(generation) => {
            out.push(b'@')?;
            print_number(generation, out)
        }
    }
}
