//! Generated runs.

ghost use Rattle.std.specs.Prelude.{◌≡◌, ◌<◌, ◌≤◌, ◌^◌, ◌++◌, ◌∷◌, [], None, IfOk, OnOk};
ghost use Rattle.lay_run.specs.Runs.{IsListed};
ghost use Rattle.lay_json.specs.FaceFields.{default_face};
ghost use Rattle.lay_generator.specs.Draws.{state_after};
ghost use Rattle.lay_generator.specs.Nodes.{id, root, section_end, section_nodes, sections, sections_end};
ghost use Rattle.lay_generator.specs.Generated.{generated, ids, with_node, with_nodes};
ghost use Rattle.lay_generator.specs.Laws.{AreFaultless};
ghost use Rattle.lay_doc.specs.Document.{root_document};
ghost use Rattle.lay_doc.specs.Edits.{insert_fault, last_index};

use crate::commands::scripts;
use crate::draws::Draws;
use crate::laws::generated_nodes_fit;
use crate::nodes::{block, container, float_box, root, text};
use lay_doc::{Doc, NewFault, NewNode, NodeId};
use lay_face::{Face, FaceMetrics, PairList};
use lay_run::{NodeList, RunDoc};
use lay_units::NoMemory;
use std::alloc::Global;
use std::sync::Arc;

/// The run of a size, 1 to 1,000, and a seed below 2^31.
pub fn generated_run(alloc: Global, size: u32, seed: u32) -> Result<RunDoc, NoMemory>
    requires size { size ≤ 1000 }
    requires seed { seed < 2 ^ 31 }
    ensures { IfOk result (λ run. run ≡ generated size seed) }
{
    generated_nodes_fit();
    let mut draws = Draws::new(seed);
    let mut doc = root_document(alloc)?;
    let mut listed = NodeList::new(alloc);
    listed.push(NodeId(1))?;
    for section in 0..size {
        push_section(alloc, section, &mut draws, &mut doc, &mut listed)?;
    }
    let scripts = scripts(alloc, size, &mut draws)?;
    let face = default_face(alloc)?;
    Ok(RunDoc::new(doc, face, scripts, listed))
}

/// The document of the root alone.
fn root_document(alloc: Global) -> Result<Doc, NoMemory>
    ensures { IfOk result (λ d. d ≡ root_document 800 600 root) }
{
    match Doc::new(alloc, 800, 600, root(alloc)?) {
        Ok(doc) => Ok(doc),
        Err(NewFault::NoMemory) => Err(NoMemory),
        Err(NewFault::Bad(_)) => unreachable!(),
    }
}

/// Puts the nodes of a section into the document, and their ids behind those that are listed.
fn push_section(
    alloc: Global,
    section: u32,
    draws: &mut Draws,
    doc: &mut Doc,
    listed: &mut NodeList,
) -> Result<(), NoMemory>
    requires section { section < 1000 }
    requires fit { AreFaultless doc.old (section_nodes section draws.old) }
    ensures doc { OnOk result (doc.new ≡ with_nodes doc.old (section_nodes section draws.old)) }
    ensures ids { OnOk result (listed.new ≡ listed.old ++ ids (section_nodes section draws.old)) }
    ensures listed { OnOk result (IsListed doc.old listed.old → IsListed doc.new listed.new) }
    ensures state { OnOk result (draws.new ≡ section_end draws.old) }
{
    let context = container(alloc, section, draws)?;
    put(doc, listed, 1, context)?;
    let float = float_box(alloc, section, draws)?;
    put(doc, listed, 2 + 4 * section, float)?;
    put(doc, listed, 2 + 4 * section, block(alloc, section)?)?;
    let text = text(alloc, section, draws)?;
    put(doc, listed, 4 + 4 * section, text)
}

/// Puts a node into the document as the last child of its parent, and its id behind those that are listed.
fn put(doc: &mut Doc, listed: &mut NodeList, parent: u32, node: NewNode) -> Result<(), NoMemory>
    requires { insert_fault doc.old parent (last_index doc.old parent) node ≡ None }
    ensures doc { OnOk result (doc.new ≡ with_node doc.old (id parent, node)) }
    ensures ids { OnOk result (listed.new ≡ listed.old ++ node.id ∷ []) }
    ensures listed { OnOk result (IsListed doc.old listed.old → IsListed doc.new listed.new) }
{
    let id = node.id();
    doc.push_last(NodeId(parent), node)?;
    listed.push(id)
}

fn default_face(alloc: Global) -> Result<Arc<Face>, NoMemory>
    ensures { IfOk result (λ f. f.value ≡ default_face) }
{
    let pairs = PairList::new(Vec::new(alloc));
    let metrics = FaceMetrics {
        default_advance: 500,
        ascent: 750,
        descent: 250,
        x_height: 500,
        normal_line_height: 1250,
    };
    let face = Face::new(alloc, pairs, metrics)?;
    let shared = Arc::new(alloc, face)?;
    Ok(shared)
}
