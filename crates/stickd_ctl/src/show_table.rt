//! The commands that show a table; `saving` and `showing` send them.

ghost use Rattle.std.specs.Prelude.{◌≡◌, IfOk};
ghost use Rattle.stickd_ctl.specs.Names.{oldest_first_text, show_text};

use base_sequence::NoMemory;
use std::alloc::Global;

/// The command that shows the entries of a table (HAProxy Management Guide 2.8, 9.3, `show table`).
pub fn show_command(alloc: Global, table: &[u8]) -> Result<Vec<u8>, NoMemory>
    ensures { IfOk result (λ command. command.items ≡ show_text table.now) }
{
    let mut command = Vec::new(alloc);
    command.extend_from_slice(b"show table ")?;
    command.extend_from_slice(table)?;
    Ok(command)
}

/// The command that shows the entries of a table in the order in which they go. A stats socket takes it, and a command socket
/// doesn't.
pub(crate) fn oldest_first_command(alloc: Global, table: &[u8]) -> Result<Vec<u8>, NoMemory>
    ensures { IfOk result (λ command. command.items ≡ oldest_first_text table.now) }
{
    let mut command = show_command(alloc, table)?;
    command.extend_from_slice(b" oldest-first")?;
    Ok(command)
}
