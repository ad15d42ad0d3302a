//! What a run document says.

ghost use Rattle.std.specs.Prelude.{◌≡◌};
ghost use Rattle.lay_run.specs.Runs.{IsListed};

use crate::node_list::NodeList;
use crate::script_list::ScriptList;
use lay_doc::Doc;
use lay_face::Face;
use std::marker::Model;
use std::sync::Arc;

/// What a run document says: a document, its face, and the scripts of its editors. `listed` has the ids of
/// the document's nodes in the order of the list `nodes`.
#[derive(Drop)]
pub struct RunDoc {
    doc: Doc,
    face: Arc<Face>,
    scripts: ScriptList,
    listed: NodeList,
}

impl Model for RunDoc {
    ghost use Rattle.lay_run.specs.Runs.{Run, IsListed};

    ghost Value = { Run };

    ghost view = { λ r. record { doc = r.doc; face = r.face.value; scripts = r.scripts; listed = r.listed } };

    ghost invariant = { λ r. IsListed r.doc r.listed };
}

impl RunDoc {
    /// The run of these parts.
    pub fn new(doc: Doc, face: Arc<Face>, scripts: ScriptList, listed: NodeList) -> RunDoc
        requires { IsListed doc listed }
        ensures { result ≡ record { doc = doc; face = face.value; scripts = scripts; listed = listed } }
    {
        RunDoc {
            doc,
            face,
            scripts,
            listed,
        }
    }

    /// The document, before any edit.
    pub fn doc(&self) -> &Doc
        ensures { result.now ≡ self.now.doc }
    {
        &self.doc
    }

    /// The face that texts are measured in.
    pub fn face(&self) -> &Arc<Face>
        ensures { result.now.value ≡ self.now.face }
    {
        &self.face
    }

    /// The scripts of the editors.
    pub fn scripts(&self) -> &ScriptList
        ensures { result.now ≡ self.now.scripts }
    {
        &self.scripts
    }

    /// The ids of the document's nodes, in the order in which the run document lists them.
    pub fn listed(&self) -> &NodeList
        ensures value { result.now ≡ self.now.listed }
        ensures listed { IsListed self.now.doc self.now.listed }
    {
        &self.listed
    }

    /// The parts themselves.
    pub fn into_parts(self) -> (Doc, Arc<Face>, ScriptList, NodeList)
        ensures doc { result.0 ≡ self.doc }
        ensures face { result.1.value ≡ self.face }
        ensures scripts { result.2 ≡ self.scripts }
        ensures listed { result.3 ≡ self.listed }
        ensures is_listed { IsListed self.doc self.listed }
    {
        (self.doc, self.face, self.scripts, self.listed)
    }
}
