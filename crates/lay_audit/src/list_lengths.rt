//! How long the lists of edits of scripts are: no longer than a number says. It is found once for all scripts.

ghost use Rattle.std.specs.List.{All};
ghost use Rattle.lay_audit.specs.Presents.{AreCommandsWithin, IsCommandWithin};

use lay_history::edits::{Cmd, CmdList};

/// Each command of the scripts has less than 2^64 edits.
pub(crate) fn lists_fit(scripts: &[CmdList])
    ensures { All AreCommandsWithin scripts.now }
{
    for script in scripts {
        commands_fit(script.as_slice());
    }
}

fn commands_fit(commands: &[Cmd])
    ensures { AreCommandsWithin commands.now }
{
    for command in commands {
        command_fits(command);
    }
}

/// The type of a list says so.
fn command_fits(command: &Cmd)
    ensures { IsCommandWithin command.now }
{
    if let Cmd::Edits(edits) = command {
        let _count = edits.len();
    }
}
