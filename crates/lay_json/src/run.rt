//! The run document.

ghost use Rattle.std.specs.Prelude.{◌≡◌, ◌≤◌, IfOk};
ghost use Rattle.serde_json.specs.View.{view, items_view};
ghost use Rattle.lay_json.specs.Fields.{map_read, Gives};
ghost use Rattle.lay_json.specs.RunDocument.{some_nodes, node_list, editor_list, viewport_sides, run_of};

use crate::editors::scripts_of;
use crate::face_fields::run_face;
use crate::fault::{Field, InputFault, Spot};
use crate::fields::{list_of, object_of, required, required_sides, value_in};
use crate::listing::listed_in;
use crate::nodes::document_of;
use lay_face::Face;
use lay_run::RunDoc;
use lay_units::NoMemory;
use serde_json::Value;
use std::alloc::Global;
use std::sync::Arc;

/// The viewport's width and height, in px.
pub(crate) fn viewport_of(run: &Value) -> Result<(u32, u32), InputFault>
    ensures value { result ≡ viewport_sides (view run.now) }
    ensures low { IfOk result (λ s. (1 ≤ s.0) × (1 ≤ s.1)) }
    ensures high { IfOk result (λ s. (s.0 ≤ 1000000) × (s.1 ≤ 1000000)) }
{
    let (width, height) = required_sides(run, Field::Viewport, Spot::Run)?;
    Ok((width as u32, height as u32))
}

/// The first node of a list, and those after it.
fn some_nodes(values: &[Value]) -> Result<(&Value, &[Value]), InputFault>
    ensures { map_read (λ p. (view p.0.now, items_view p.1.now)) result ≡ some_nodes (items_view values.now) }
{
    match values.split_first() {
        Some(nodes) => Ok(nodes),
        None => Err(InputFault::Missing {
            field: Field::Nodes,
            place: Spot::Run,
        }),
    }
}

/// The first of a run's nodes, and those after it.
fn node_list(run: &Value) -> Result<(&Value, &[Value]), InputFault>
    ensures { map_read (λ p. (view p.0.now, items_view p.1.now)) result ≡ node_list (view run.now) }
{
    let nodes = required(run, Field::Nodes, Spot::Run)?;
    some_nodes(list_of(nodes, Field::Nodes, Spot::Run)?)
}

/// A run's editors, none where the field is absent.
pub(crate) fn editor_list(run: &Value) -> Result<&[Value], InputFault>
    ensures { map_read (λ v. items_view v.now) result ≡ editor_list (view run.now) }
{
    match value_in(run, Field::Editors) {
        Some(editors) => Ok(list_of(editors, Field::Editors, Spot::Run)?),
        None => Ok(&[]),
    }
}

pub(crate) fn shared(alloc: Global, face: Face) -> Result<Arc<Face>, NoMemory>
    ensures { IfOk result (λ a. a.value ≡ face) }
{
    let face = Arc::new(alloc, face)?;
    Ok(face)
}

/// The run of a run document, or its first fault.
pub(crate) fn run_of(alloc: Global, run: &Value) -> Result<RunDoc, InputFault>
    ensures { Gives result (run_of (view run.now)) }
{
    object_of(run, Field::Run, Spot::Run)?;
    let viewport = viewport_of(run)?;
    let face = run_face(alloc, run)?;
    let (first, rest) = node_list(run)?;
    let editors = editor_list(run)?;
    let doc = document_of(alloc, viewport, first, rest)?;
    let scripts = scripts_of(alloc, editors)?;
    let listed = listed_in(alloc, first, rest)?;
    let face = shared(alloc, face)?;
    Ok(RunDoc::new(doc, face, scripts, listed))
}
