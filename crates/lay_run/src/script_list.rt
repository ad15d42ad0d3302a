//! Scripts: the commands of editors.

ghost use Rattle.std.specs.Prelude.{◌≡◌, ◌+◌, ◌<◌, ◌≤◌, ◌==◌, ◌++◌, ◌∷◌, [], length, OnOk, OnErr};
ghost use Rattle.lay_run.specs.Scripts.{IsWithinLimits, is_read, reads_of, command_count, read_count};

use lay_history::edits::{Cmd, CmdList};
use lay_units::NoMemory;
use std::alloc::Global;
use std::marker::Model;

/// The scripts of editors, in the editors' order: at most 16, with at most 8,192 commands together, of
/// which at most 256 read.
#[derive(Drop)]
pub struct ScriptList {
    items: Vec<CmdList>,
    /// How many commands there are in all.
    commands: usize,
    /// How many of them read.
    reads: usize,
}

impl Model for ScriptList {
    ghost use Rattle.std.specs.Prelude.{List};
    ghost use Rattle.lay_history.specs.declared.edits.command.Cmd.{Cmd};
    ghost use Rattle.lay_run.specs.Scripts.{AreCommandsCounted};

    ghost Value = { List (List Cmd) };

    ghost view = { λ s. s.items.items };

    ghost invariant = { λ s. AreCommandsCounted s.items.items s.commands s.reads };
}

impl ScriptList {
    /// No scripts; nothing is allocated.
    pub fn new(alloc: Global) -> ScriptList
        ensures { result ≡ [] }
    {
        ScriptList {
            items: Vec::new(alloc),
            commands: 0,
            reads: 0,
        }
    }

    /// Adds the script of the next editor. On an error all is as before.
    pub fn push(&mut self, script: CmdList) -> Result<(), NoMemory>
        requires lists { length self.old < 16 }
        requires commands { command_count self.old + length script ≤ 8192 }
        requires reads { read_count self.old + reads_of script ≤ 256 }
        ensures ok { OnOk result (self.new ≡ self.old ++ script ∷ []) }
        ensures err { OnErr result (self.new ≡ self.old) }
    {
        let reads = reads_of(script.as_slice());
        self.push_counted(script, reads)
    }

    /// Adds the script of the next editor, where the number of its commands that read, 0 to 256, is counted already.
    /// On an error all is as before.
    pub fn push_counted(&mut self, script: CmdList, reads: usize) -> Result<(), NoMemory>
        requires counted { reads ≡ reads_of script }
        requires lists { length self.old < 16 }
        requires commands { command_count self.old + length script ≤ 8192 }
        requires reads { read_count self.old + reads_of script ≤ 256 }
        ensures ok { OnOk result (self.new ≡ self.old ++ script ∷ []) }
        ensures err { OnErr result (self.new ≡ self.old) }
    {
        let commands = script.len();
        self.items.push(script)?;
        self.commands += commands;
        self.reads += reads;
        Ok(())
    }

    /// How many scripts there are.
    pub fn len(&self) -> usize
        ensures value { result ≡ length self.now }
        ensures within { IsWithinLimits self.now }
    {
        self.items.len()
    }

    /// Whether there are none.
    pub fn is_empty(&self) -> bool
        ensures { result ≡ (length self.now == 0) }
    {
        self.items.is_empty()
    }

    /// How many commands there are in all scripts together.
    pub fn commands(&self) -> usize
        ensures value { result ≡ command_count self.now }
        ensures few { result ≤ 8192 }
    {
        self.commands
    }

    /// How many of all commands read.
    pub fn reads(&self) -> usize
        ensures value { result ≡ read_count self.now }
        ensures few { result ≤ 256 }
    {
        self.reads
    }

    /// The scripts, in order.
    pub fn as_slice(&self) -> &[CmdList]
        ensures value { result.now ≡ self.now }
        ensures within { IsWithinLimits self.now }
    {
        self.items.as_slice()
    }

    /// The scripts themselves, in order.
    pub fn into_vec(self) -> Vec<CmdList>
        ensures value { result.items ≡ self }
        ensures within { IsWithinLimits self }
    {
        self.items
    }
}

/// Whether a command reads: it is to be shown a version, the last published one or that with all accepted edits.
pub fn is_read(command: &Cmd) -> bool
    ensures { result ≡ is_read command.now }
{
    matches!(command, Cmd::Latest | Cmd::Sync)
}

/// How many commands read.
fn reads_of(commands: &[Cmd]) -> usize
    ensures value { result ≡ reads_of commands.now }
    ensures few { result ≤ length commands.now }
{
    let mut reads = 0;
    for command in commands {
        if is_read(command) {
            reads += 1;
        }
    }
    reads
}
