//! Layout of a document from scratch.

ghost use Rattle.std.specs.Prelude.{◌≡◌, ◌+◌, IfOk, OnOk, length};
ghost use Rattle.lay_abspos.specs.ViewportBounds.{ViewportFits};
ghost use Rattle.lay_style.specs.ComputedStyle.{HasStyles};
ghost use Rattle.lay_doc.specs.Document.{parents_of, declarations_of};
ghost use Rattle.lay_context.specs.Local.{HasCounts, input_of};
ghost use Rattle.lay_context.specs.Needs.{round_start};
ghost use Rattle.lay_context.specs.Settling.{AreDone, BeforeTurn, IsReady, IsSettled};
ghost use Rattle.lay_context.specs.Solves.{Solves, SolvesContexts, viewport_of};

use crate::assembling::assemble;
use crate::computing::compute_with;
use crate::formatted_document::FormattedDocument;
use crate::given::input_of;
use crate::known::Known;
use crate::laid_contexts::LaidContexts;
use crate::measured::measured_flags;
use crate::medium::Medium;
use crate::plan::Plan;
use crate::shared_contents::shared_contents;
use crate::task::{Phase, Task};
use lay_contexts::{Contexts, FormattingContexts, contexts_of, formatting_contexts};
use lay_doc::Doc;
use lay_face::Face;
use lay_frag::Tree;
use lay_inherit::computed;
use lay_line_items::InlineContents;
use lay_positioned::{level_count, levels};
use lay_sizes::ContainingBlock;
use lay_style::Computed;
use lay_table_grid::grids_are_of_boxes;
use lay_units::{Len, NoMemory, Unit};
use std::alloc::Global;
use std::mem::forget;
use std::sync::Arc;

/// A tree, and what it was worked out of.
#[derive(Drop)]
struct LaidDocument {
    tree: Tree,
    used: Used,
}

/// What a tree was worked out of.
#[derive(Drop)]
struct Used {
    computed: Computed,
    contexts: Contexts,
    formatting_contexts: FormattingContexts,
    values: UsedValues,
}

/// The values that it was put together of, and the content of lines that these shared.
#[derive(Drop)]
struct UsedValues {
    known: Known,
    contents: Vec<InlineContents>,
}

/// A tree of formatting contexts, and the values that it was put together of.
#[derive(Drop)]
struct LaidContextTree {
    tree: Tree,
    values: UsedValues,
}

/// The layout of a document in a face: the tree that solves it.
pub fn scratch(alloc: Global, doc: &Doc, face: &Arc<Face>) -> Result<Tree, NoMemory>
    ensures { IfOk result (Solves doc.now face.now.value) }
{
    let laid = laid_document(alloc, doc, face)?;
    Ok(laid.tree)
}

/// The layout of a document in a face, for a program that ends after it. What the tree was computed of isn't freed list by list,
/// as the system takes all memory of a program that ends.
pub fn last_scratch(alloc: Global, doc: &Doc, face: &Arc<Face>) -> Result<Tree, NoMemory>
    ensures { IfOk result (Solves doc.now face.now.value) }
{
    let laid = laid_document(alloc, doc, face)?;
    forget(laid.used);
    Ok(laid.tree)
}

fn laid_document(alloc: Global, doc: &Doc, face: &Arc<Face>) -> Result<LaidDocument, NoMemory>
    ensures { IfOk result (λ l. Solves doc.now face.now.value l.tree) }
{
    let computed = computed(alloc, doc)?;
    laid_styled(alloc, doc, face, computed)
}

/// The layout of a document whose computed styles are known.
fn laid_styled(
    alloc: Global,
    doc: &Doc,
    face: &Arc<Face>,
    computed: Computed,
) -> Result<LaidDocument, NoMemory>
    requires styles { HasStyles (parents_of doc.now.nodes) (declarations_of doc.now.nodes) computed }
    ensures { IfOk result (λ l. Solves doc.now face.now.value l.tree) }
{
    let contexts = contexts_of(alloc, doc, &computed)?;
    let formatting_contexts = formatting_contexts(alloc, &contexts)?;
    let medium = Medium::new(viewport_of(doc), face.clone()?);
    let laid = lay_contexts(alloc, &medium, &formatting_contexts)?;
    Ok(LaidDocument {
        tree: laid.tree,
        used: Used {
            computed,
            contexts,
            formatting_contexts,
            values: laid.values,
        },
    })
}

/// The viewport as the root's containing block.
pub fn viewport_of(doc: &Doc) -> ContainingBlock
    ensures value { result ≡ viewport_of doc.now }
    ensures fits { ViewportFits result }
{
    let _ = doc.nodes();
    ContainingBlock {
        width: Unit(i64::from(doc.width()) * 64),
        height: Len::Of(Unit(i64::from(doc.height()) * 64)),
    }
}

/// The layout of these formatting contexts: each task in its turn, and the tree put together of the values.
fn lay_contexts(
    alloc: Global,
    medium: &Medium,
    contexts: &FormattingContexts,
) -> Result<LaidContextTree, NoMemory>
    ensures { IfOk result (λ l. SolvesContexts medium.now contexts.now l.tree) }
{
    grids_are_of_boxes();
    let levels = levels(alloc, contexts)?;
    let measured = measured_flags(alloc, contexts)?;
    let contents = shared_contents(alloc, medium, contexts)?;
    let plan = Plan {
        medium,
        contexts,
        levels: &levels,
        contents: &contents,
        measured: &measured,
    };
    let mut known = Known::new(alloc, contexts.len())?;
    measure_all(alloc, &plan, &mut known)?;
    for level in 0..level_count(&levels) {
        lay_level(alloc, &plan, &mut known, level)?;
    }
    let laid = LaidContexts {
        contexts,
        known: &known,
    };
    let tree = assemble(alloc, &laid)?;
    let values = UsedValues { known, contents };
    Ok(LaidContextTree { tree, values })
}

/// Measures all formatting contexts, from the last one to the first.
fn measure_all(alloc: Global, plan: &Plan<'_>, known: &mut Known) -> Result<(), NoMemory>
    requires before { HasCounts plan.now.contexts.now known.old }
    ensures { OnOk result
        (AreDone plan.now.medium.now plan.now.contexts.now known.new (BeforeTurn plan.now.levels.now (length plan.now.contexts.now))) }
{
    let count = plan.contexts.len();
    for done in 0..count {
        let task = Task {
            context: count - 1 - done,
            phase: Phase::Measure,
        };
        settle(alloc, plan, known, task)?;
    }
    Ok(())
}

/// Sizes the formatting contexts of a level, from the first one to the last, and then places them from the last to the
/// first.
fn lay_level(
    alloc: Global,
    plan: &Plan<'_>,
    known: &mut Known,
    level: usize,
) -> Result<(), NoMemory>
    requires before { AreDone plan.now.medium.now plan.now.contexts.now known.old
        (BeforeTurn plan.now.levels.now (round_start (length plan.now.contexts.now) level)) }
    ensures { OnOk result
        (AreDone plan.now.medium.now plan.now.contexts.now known.new
        (BeforeTurn plan.now.levels.now (round_start (length plan.now.contexts.now) (level + 1)))) }
{
    size_level(alloc, plan, known, level)?;
    place_level(alloc, plan, known, level)
}

fn size_level(
    alloc: Global,
    plan: &Plan<'_>,
    known: &mut Known,
    level: usize,
) -> Result<(), NoMemory>
    requires before { AreDone plan.now.medium.now plan.now.contexts.now known.old
        (BeforeTurn plan.now.levels.now (round_start (length plan.now.contexts.now) level)) }
    ensures { OnOk result
        (AreDone plan.now.medium.now plan.now.contexts.now known.new
        (BeforeTurn plan.now.levels.now (round_start (length plan.now.contexts.now) level + length plan.now.contexts.now))) }
{
    let count = plan.contexts.len();
    for i in 0..count {
        if plan.levels[i] == level {
            let task = Task {
                context: i,
                phase: Phase::Size,
            };
            settle(alloc, plan, known, task)?;
        }
    }
    Ok(())
}

fn place_level(
    alloc: Global,
    plan: &Plan<'_>,
    known: &mut Known,
    level: usize,
) -> Result<(), NoMemory>
    requires before { AreDone plan.now.medium.now plan.now.contexts.now known.old
        (BeforeTurn plan.now.levels.now (round_start (length plan.now.contexts.now) level + length plan.now.contexts.now)) }
    ensures { OnOk result
        (AreDone plan.now.medium.now plan.now.contexts.now known.new
        (BeforeTurn plan.now.levels.now (round_start (length plan.now.contexts.now) (level + 1)))) }
{
    let count = plan.contexts.len();
    for done in 0..count {
        let i = count - 1 - done;
        if plan.levels[i] == level {
            let task = Task {
                context: i,
                phase: Phase::Place,
            };
            settle(alloc, plan, known, task)?;
        }
    }
    Ok(())
}

/// Computes the value of a task, where the values that it needs are known.
fn settle(alloc: Global, plan: &Plan<'_>, known: &mut Known, task: Task) -> Result<(), NoMemory>
    requires ready { IsReady plan.now.contexts.now known.old task }
    ensures { OnOk result (IsSettled (input_of plan.now.medium.now plan.now.contexts.now known.old task) known.old task.context known.new) }
{
    let document = FormattedDocument {
        medium: plan.medium,
        contexts: plan.contexts,
        measured: plan.measured,
    };
    let input = input_of(alloc, &document, known, task)?;
    let value = compute_with(alloc, input, plan.contents_of(task.context))?;
    known.set(task.context, value);
    Ok(())
}
