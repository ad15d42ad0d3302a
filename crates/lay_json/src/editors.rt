//! The editors of a run document.

ghost use Rattle.std.specs.Prelude.{◌≡◌, ◌≤◌, ◌<◌, ◌+◌, ◌++◌, ◌∷◌, [], false, length, IfOk, OnOk, OnErr};
ghost use Rattle.serde_json.specs.View.{view, items_view};
ghost use Rattle.lay_json.specs.Fields.{Gives, Changes};
ghost use Rattle.lay_run.specs.Scripts.{is_read, reads_of, command_count, read_count};
ghost use Rattle.lay_json.specs.Editors.{is_past, next_script_command, with_command, script_from};
ghost use Rattle.lay_json.specs.Editors.{with_script, scripts_from, are_lists, scripts_of};

use crate::command::command_of;
use crate::fault::{Field, InputFault, Spot};
use crate::fields::{has_at_most, list_of};
use lay_history::edits::{Cmd, CmdList};
use lay_run::{ScriptList, is_read};
use lay_units::NoMemory;
use serde_json::Value;
use std::alloc::Global;
use std::marker::Model;

const MOST_EDITORS: usize = 16;

const MOST_COMMANDS: usize = 8192;

const MOST_READS: usize = 256;

/// The script of one editor, as far as it is read.
#[derive(Drop)]
struct Script {
    commands: CmdList,
    /// How many of them read.
    reads: usize,
}

impl Model for Script {
    ghost use Rattle.std.specs.Prelude.{List};
    ghost use Rattle.lay_history.specs.declared.edits.command.Cmd.{Cmd};
    ghost use Rattle.lay_run.specs.Scripts.{IsScript};

    ghost Value = { List Cmd };

    ghost view = { λ s. s.commands };

    ghost invariant = { λ s. IsScript s.commands s.reads };
}

impl Script {
    fn new(alloc: Global) -> Script
        ensures { result ≡ [] }
    {
        Script {
            commands: CmdList::new(alloc),
            reads: 0,
        }
    }

    fn len(&self) -> usize
        ensures value { result ≡ length self.now }
        ensures few { result ≤ 8192 }
    {
        self.commands.len()
    }

    fn reads(&self) -> usize
        ensures value { result ≡ reads_of self.now }
        ensures few { result ≤ 256 }
    {
        self.reads
    }

    /// Adds a command as the last one.
    fn push(&mut self, command: Cmd) -> Result<(), NoMemory>
        requires commands { length self.old < 8192 }
        requires reads { reads_of (self.old ++ command ∷ []) ≤ 256 }
        ensures ok { OnOk result (self.new ≡ self.old ++ command ∷ []) }
        ensures err { OnErr result (self.new ≡ self.old) }
    {
        let reads = is_read(&command);
        self.commands.push(command)?;
        if reads {
            self.reads += 1;
        }
        Ok(())
    }

    /// Adds the script as that of the next editor.
    fn put(self, scripts: &mut ScriptList) -> Result<(), NoMemory>
        requires lists { length scripts.old < 16 }
        requires commands { command_count scripts.old + length self ≤ 8192 }
        requires reads { read_count scripts.old + reads_of self ≤ 256 }
        ensures ok { OnOk result (scripts.new ≡ scripts.old ++ self ∷ []) }
        ensures err { OnErr result (scripts.new ≡ scripts.old) }
    {
        scripts.push_counted(self.commands, self.reads)
    }
}

/// Whether a command that follows these is one too many.
fn is_past(before: &ScriptList, own: &Script, command: &Cmd) -> bool
    ensures { result ≡ is_past before.now own.now command.now }
{
    let commands = before.commands() + own.len();
    let reads = before.reads() + own.reads();
    commands >= MOST_COMMANDS || (is_read(command) && reads >= MOST_READS)
}

/// The command that follows these.
fn next_command(
    alloc: Global,
    editor: u32,
    before: &ScriptList,
    own: &Script,
    value: &Value,
) -> Result<Cmd, InputFault>
    requires { editor ≡ length before.now + 1 }
    ensures value { Gives result (next_script_command before.now own.now (view value.now)) }
    ensures within { IfOk result (λ c. is_past before.now own.now c ≡ false) }
{
    let index = own.len() as u32;
    let command = command_of(alloc, value, editor, index)?;
    if is_past(before, own, &command) {
        return Err(InputFault::TooManyCommands);
    }
    Ok(command)
}

/// Reads the command that follows these, and adds it to its editor's own.
fn add_command(
    alloc: Global,
    editor: u32,
    before: &ScriptList,
    own: &mut Script,
    value: &Value,
) -> Result<(), InputFault>
    requires editor { editor ≡ length before.now + 1 }
    requires commands { command_count before.now + length own.old ≤ 8192 }
    requires reads { read_count before.now + reads_of own.old ≤ 256 }
    ensures value { Changes result own.new (with_command before.now own.old (view value.now)) }
    ensures commands { OnOk result (command_count before.now + length own.new ≤ 8192) }
    ensures reads { OnOk result (read_count before.now + reads_of own.new ≤ 256) }
{
    let command = next_command(alloc, editor, before, own, value)?;
    own.push(command)?;
    Ok(())
}

/// The script of the editor that follows these.
fn script_from(alloc: Global, before: &ScriptList, values: &[Value]) -> Result<Script, InputFault>
    ensures value { Gives result (script_from before.now [] (items_view values.now)) }
    ensures commands { IfOk result (λ s. command_count before.now + length s ≤ 8192) }
    ensures reads { IfOk result (λ s. read_count before.now + reads_of s ≤ 256) }
{
    let editor = before.len() as u32 + 1;
    let mut own = Script::new(alloc);
    for value in values {
        add_command(alloc, editor, before, &mut own, value)?;
    }
    Ok(own)
}

/// Reads the script of the editor that follows these, and adds it.
fn add_script(alloc: Global, scripts: &mut ScriptList, editor: &Value) -> Result<(), InputFault>
    requires { length scripts.old < 16 }
    ensures { Changes result scripts.new (with_script scripts.old (view editor.now)) }
{
    let values = list_of(editor, Field::Editors, Spot::Run)?;
    let script = script_from(alloc, scripts, values)?;
    script.put(scripts)?;
    Ok(())
}

fn scripts_from(alloc: Global, editors: &[Value]) -> Result<ScriptList, InputFault>
    requires { length editors.now ≤ 16 }
    ensures { Gives result (scripts_from [] (items_view editors.now)) }
{
    let mut scripts = ScriptList::new(alloc);
    for editor in editors {
        add_script(alloc, &mut scripts, editor)?;
    }
    Ok(scripts)
}

fn are_lists(editors: &[Value]) -> bool
    ensures { result ≡ are_lists (items_view editors.now) }
{
    for editor in editors {
        if !editor.is_array() {
            return false;
        }
    }
    true
}

/// The scripts of the editors of a run document, or their first fault.
#[tactic(auto, using(crate::proofs::Counts::count_of_view))]
pub(crate) fn scripts_of(alloc: Global, editors: &[Value]) -> Result<ScriptList, InputFault>
    ensures { Gives result (scripts_of (items_view editors.now)) }
{
    if !has_at_most(MOST_EDITORS, editors) {
        return Err(InputFault::TooManyEditors);
    }
    if !are_lists(editors) {
        return Err(InputFault::WrongKind {
            field: Field::Editors,
            place: Spot::Run,
        });
    }
    scripts_from(alloc, editors)
}
