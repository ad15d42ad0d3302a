//! The line of a refusal.

ghost use Rattle.std.specs.Prelude.{◌≡◌, ◌++◌, IfOk, OnOk, codes, string_bytes};
ghost use Rattle.std.specs.Fmt.{decimal};
ghost use Rattle.lay_cli.specs.Refusals.{spot_text, field_text, value_fault, fault_text, fault_line};
ghost use Rattle.lay_report.specs.Report.{fault_number};

use lay_doc::EditFault;
use lay_json::{Field, InputFault, Spot};
use lay_report::{fault_number, push_number};
use lay_units::{NoMemory, Text};
use std::alloc::Global;

/// The line for a fault of a run document.
pub(crate) fn fault_line(alloc: Global, fault: InputFault) -> Result<Text, NoMemory>
    ensures { IfOk result (λ t. t ≡ fault_line fault) }
{
    let mut text = String::from_str(alloc, "refused ")?;
    push_fault(&mut text, fault)?;
    text.push_str("\n")?;
    Ok(Text::new(text))
}

fn push_fault(text: &mut String, fault: InputFault) -> Result<(), NoMemory>
    ensures { OnOk result (string_bytes text.new ≡ string_bytes text.old ++ fault_text fault) }
{
    match fault {
        InputFault::TooLong => push_word(text, "I1"),
        InputFault::BadJson => push_word(text, "I2"),
        InputFault::Missing { field, place } => push_field(text, "I3 ", field, place),
        InputFault::WrongKind { field, place } => push_field(text, "I4 ", field, place),
        InputFault::BadNumber { field, place } => push_field(text, "I9 ", field, place),
        InputFault::BadNode { node, fault } => push_node_fault(text, node, fault),
        InputFault::BadDecl { node, known } => push_value_fault(text, node, known),
        InputFault::TooManyEditors => push_word(text, "I7"),
        InputFault::TooManyCommands => push_word(text, "I8"),
        InputFault::BatchTooLong { editor, index } => {
            push_number(text, "I10 ", u64::from(editor))?;
            push_number(text, " ", u64::from(index))
        }
        InputFault::TooManySelectors => push_word(text, "I11"),
        InputFault::NoMemory => push_word(text, ""),
    }
}

fn push_word(text: &mut String, word: &str) -> Result<(), NoMemory>
    ensures { OnOk result (string_bytes text.new ≡ string_bytes text.old ++ word.now) }
{
    text.push_str(word)?;
    Ok(())
}

fn push_field(text: &mut String, word: &str, field: Field, place: Spot) -> Result<(), NoMemory>
    ensures { OnOk result (string_bytes text.new ≡ string_bytes text.old ++ field_text word.now field place) }
{
    text.push_str(word)?;
    text.push_str(field.name())?;
    text.push_str(" ")?;
    push_place(text, place)
}

fn push_place(text: &mut String, place: Spot) -> Result<(), NoMemory>
    ensures { OnOk result (string_bytes text.new ≡ string_bytes text.old ++ spot_text place) }
{
    match place {
        Spot::Run => push_word(text, "run"),
        Spot::Node(node) => push_number(text, "node ", u64::from(node)),
        Spot::Command { editor, index } => {
            push_number(text, "command ", u64::from(editor))?;
            push_number(text, " ", u64::from(index))
        }
    }
}

fn push_node_fault(text: &mut String, node: u32, fault: EditFault) -> Result<(), NoMemory>
    ensures { OnOk result
        (string_bytes text.new ≡ string_bytes text.old ++ codes "I5 " ++ decimal node ++ codes " E" ++ decimal (fault_number fault)) }
{
    push_number(text, "I5 ", u64::from(node))?;
    push_number(text, " E", fault_number(fault))
}

fn push_value_fault(text: &mut String, node: u32, known: bool) -> Result<(), NoMemory>
    ensures { OnOk result (string_bytes text.new ≡ string_bytes text.old ++ codes "I6 " ++ decimal node ++ value_fault known) }
{
    push_number(text, "I6 ", u64::from(node))?;
    push_word(text, if known { " V2" } else { " V1" })
}
