//! The commands of the editors of a generated run.

ghost use Rattle.std.specs.Prelude.{◌≡◌, ◌<◌, ◌≤◌, ◌++◌, ◌∷◌, [], IfOk, OnOk, length};
ghost use Rattle.std.specs.List.{filter};
ghost use Rattle.lay_run.specs.Scripts.{reads_of};
ghost use Rattle.lay_generator.specs.Draws.{next, state_after};
ghost use Rattle.lay_generator.specs.Commands.{is_section_of, set_paddings, script, script_end, scripts, set_padding};

use crate::batches::Batches;
use crate::draws::Draws;
use crate::nodes::{decl, px};
use lay_doc::{Edit, NodeId};
use lay_history::edits::{Cmd, CmdList};
use lay_run::ScriptList;
use lay_style::Property;
use lay_units::NoMemory;
use std::alloc::Global;

/// The scripts of the four editors, for so many sections.
pub(crate) fn scripts(alloc: Global, size: u32, draws: &mut Draws) -> Result<ScriptList, NoMemory>
    requires { size ≤ 1000 }
    ensures { IfOk result (λ s. s ≡ scripts size 4 1 draws.old) }
{
    let mut scripts = ScriptList::new(alloc);
    for editor in 1..5 {
        let script = script(alloc, size, editor, draws)?;
        scripts.push(script)?;
    }
    Ok(scripts)
}

/// The script of an editor.
#[tactic(auto, using(crate::proofs::Batching::few_batches, crate::proofs::Batching::one_reads))]
fn script(alloc: Global, size: u32, editor: u32, draws: &mut Draws) -> Result<CmdList, NoMemory>
    requires size { size ≤ 1000 }
    requires editor { 1 ≤ editor }
    ensures script { IfOk result (λ s. s ≡ script size editor draws.old) }
    ensures few { IfOk result (λ s. length s ≤ 1001) }
    ensures reads { IfOk result (λ s. reads_of s ≡ 1) }
    ensures state { OnOk result (draws.new ≡ script_end size editor draws.old) }
{
    let mut batches = Batches::new(alloc);
    for section in 0..size {
        push_padding(section, editor, draws, &mut batches)?;
    }
    let mut commands = batches.into_commands()?;
    commands.push(Cmd::Sync)?;
    Ok(commands)
}

/// Adds the edit for a section, where this editor changes it.
fn push_padding(
    section: u32,
    editor: u32,
    draws: &mut Draws,
    batches: &mut Batches,
) -> Result<(), NoMemory>
    requires section { section < 1000 }
    requires editor { 1 ≤ editor }
    ensures edits { OnOk result (batches.new ≡ batches.old ++ set_paddings (filter (is_section_of editor) (section ∷ [])) draws.old) }
    ensures state { OnOk result (draws.new ≡ state_after (length (filter (is_section_of editor) (section ∷ []))) draws.old) }
{
    if section % 4 == editor - 1 {
        batches.push(set_padding(section, draws))?;
    }
    Ok(())
}

/// Sets the left padding of a section's block.
fn set_padding(section: u32, draws: &mut Draws) -> Edit
    requires { section < 1000 }
    ensures edit { result ≡ set_padding section draws.old }
    ensures state { draws.new ≡ next draws.old }
{
    let padding = px(draws.draw() % 30);
    Edit::SetStyle {
        node: NodeId(4 + 4 * section),
        decl: decl(Property::PaddingLeft, padding),
    }
}
