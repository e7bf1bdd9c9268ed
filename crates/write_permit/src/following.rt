ghost use Rattle.std.specs.Prelude.{◌≡◌, ◌≤◌, OnOk, length};
ghost use Rattle.write_permit.specs.Agreement.{CanFollow, CanPromote, all_promoted, followed, new_modules};

use module_table::ModuleTable;
use server_core::{Cmd, ModRef, Server};
use term_core::NoMemory;

/// Takes the room that the table needs to follow the command.
pub fn make_room(table: &mut ModuleTable, cmd: &Cmd) -> Result<(), NoMemory>
    ensures ok { OnOk result (new_modules cmd.now ≤ table.new.room) }
    ensures same { table.new.instances ≡ table.old.instances }
{
    match cmd {
        Cmd::Load(refs) => table.reserve(refs.len()),
        _ => Ok(()),
    }
}

/// Brings the table in step with a server that has made the command. It takes no memory.
pub fn follow(table: &mut ModuleTable, server: &Server, cmd: &Cmd)
    requires can { CanFollow table.old.instances server.now cmd.now }
    requires room { new_modules cmd.now ≤ table.old.room }
    ensures { table.new.instances ≡ followed table.old.instances server.now cmd.now }
{
    match cmd {
        Cmd::Load(refs) => promote_all(table, server, refs.as_slice()),
        Cmd::Delete(module) => {
            table.drop_current(*module);
        }
        Cmd::SoftPurge { module, .. } | Cmd::Purge { module, .. } => {
            table.take_old(*module);
        }
        _ => {}
    }
}

/// The modules become current, each with the serial that the server gives it.
fn promote_all(table: &mut ModuleTable, server: &Server, refs: &[ModRef])
    requires can { CanPromote table.old.instances server.now refs.now }
    requires room { length refs.now ≤ table.old.room }
    ensures { table.new.instances ≡ all_promoted table.old.instances server.now refs.now }
{
    for to in refs {
        let Some(serial) = server.current(to.name) else {
            unreachable!()
        };
        table.promote(to.name, serial).unwrap();
    }
}
