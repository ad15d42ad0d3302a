//! One command of an editor.

ghost use Rattle.std.specs.Prelude.{◌≡◌, ◌≤◌, ◌<◌, ◌+◌, ◌++◌, ◌∷◌, [], length, IfOk, OnOk};
ghost use Rattle.serde_json.specs.Data.{item};
ghost use Rattle.serde_json.specs.View.{view, items_view};
ghost use Rattle.lay_json.specs.EditCommands.{edit_of};
ghost use Rattle.lay_json.specs.Fields.{Changes, Gives, map_read};
ghost use Rattle.lay_json.specs.Commands.{action_named, action_of, batch_of, command_for, command_of, listed_edits, not_empty};

use crate::edit::{Change, change_named, edit_for, edit_of};
use crate::fault::{Field, InputFault, Spot};
use crate::fields::{has_at_most, list_of, object_of, required, required_text};
use lay_history::edits::{Cmd, Edits, MOST_EDITS};
use serde_json::Value;
use std::alloc::Global;

/// What `do` names.
#[derive(Clone, Copy)]
pub(crate) enum Action {
    Change(Change),
    Batch,
    Latest,
    Sync,
}

fn action_named(text: &str) -> Option<Action>
    ensures { result ≡ action_named text.now }
{
    match text {
        "batch" => Some(Action::Batch),
        "latest" => Some(Action::Latest),
        "sync" => Some(Action::Sync),
        _ => match change_named(text) {
            Some(change) => Some(Action::Change(change)),
            None => None,
        },
    }
}

fn action_of(object: &Value, place: Spot) -> Result<Action, InputFault>
    ensures { result ≡ action_of place (view object.now) }
{
    let field = Field::Do;
    match action_named(required_text(object, field, place)?) {
        Some(action) => Ok(action),
        None => Err(InputFault::WrongKind { field, place }),
    }
}

/// The first of a batch's edits, and those after it.
fn first_edit(values: &[Value], place: Spot) -> Result<(&Value, &[Value]), InputFault>
    ensures value { map_read (λ p. item (view p.0.now) (items_view p.1.now)) result ≡ not_empty place (items_view values.now) }
    ensures items { IfOk result (λ p. items_view values.now ≡ item (view p.0.now) (items_view p.1.now)) }
    ensures count { IfOk result (λ p. length p.1.now + 1 ≡ length values.now) }
{
    match values.split_first() {
        Some(edits) => Ok(edits),
        None => Err(InputFault::Missing {
            field: Field::Edits,
            place,
        }),
    }
}

/// Reads the next edit of a batch and adds it.
fn add_edit(alloc: Global, edits: &mut Edits, value: &Value, place: Spot) -> Result<(), InputFault>
    requires { length edits.old < 1024 }
    ensures value { Changes result edits.new (map_read (λ e. edits.old ++ e ∷ []) (edit_of place (view value.now))) }
    ensures count { OnOk result (length edits.new ≡ length edits.old + 1) }
{
    let edit = edit_of(alloc, value, place)?;
    edits.push(edit)?;
    Ok(())
}

/// Reads the edits of a batch and adds them.
fn add_edits(
    alloc: Global,
    edits: &mut Edits,
    values: &[Value],
    place: Spot,
) -> Result<(), InputFault>
    requires { length edits.old + length values.now ≤ 1024 }
    ensures { Changes result edits.new (map_read (λ es. edits.old ++ es) (listed_edits place (items_view values.now))) }
{
    for value in values {
        add_edit(alloc, edits, value, place)?;
    }
    Ok(())
}

/// The edits of a batch, or the first fault of its list.
#[tactic(auto, using(crate::proofs::EditLists::starts))]
fn batch_of(alloc: Global, object: &Value, editor: u32, index: u32) -> Result<Edits, InputFault>
    ensures { Gives result (batch_of editor index (view object.now)) }
{
    let place = Spot::Command { editor, index };
    let value = required(object, Field::Edits, place)?;
    let all = list_of(value, Field::Edits, place)?;
    let (first, rest) = first_edit(all, place)?;
    if !has_at_most(MOST_EDITS, all) {
        return Err(InputFault::BatchTooLong { editor, index });
    }
    let mut edits = Edits::one(alloc, edit_of(alloc, first, place)?)?;
    add_edits(alloc, &mut edits, rest, place)?;
    Ok(edits)
}

fn command_for(
    alloc: Global,
    object: &Value,
    editor: u32,
    index: u32,
    action: Action,
) -> Result<Cmd, InputFault>
    ensures { Gives result (command_for editor index (view object.now) action) }
{
    match action {
        Action::Change(change) => {
            let edit = edit_for(alloc, object, Spot::Command { editor, index }, change)?;
            Ok(Cmd::Edits(Edits::one(alloc, edit)?))
        }
        Action::Batch => Ok(Cmd::Edits(batch_of(alloc, object, editor, index)?)),
        Action::Latest => Ok(Cmd::Latest),
        Action::Sync => Ok(Cmd::Sync),
    }
}

/// The command of this index of an editor, which a value is, or the first fault of its fields.
pub(crate) fn command_of(
    alloc: Global,
    value: &Value,
    editor: u32,
    index: u32,
) -> Result<Cmd, InputFault>
    ensures { Gives result (command_of editor index (view value.now)) }
{
    let place = Spot::Command { editor, index };
    object_of(value, Field::Do, place)?;
    let action = action_of(value, place)?;
    command_for(alloc, value, editor, index, action)
}
