//! What a document is laid out on.

ghost use Rattle.std.specs.Prelude.{◌≡◌, IfOk};
ghost use Rattle.lay_abspos.specs.ViewportBounds.{ViewportFits};

use lay_face::Face;
use lay_sizes::ContainingBlock;
use lay_units::NoMemory;
use std::marker::Model;
use std::sync::Arc;

/// What all contexts of a document share: the viewport, which is the containing block of the root, and the face of
/// texts.
#[derive(Drop)]
pub struct Medium {
    viewport: ContainingBlock,
    face: Arc<Face>,
}

impl Model for Medium {
    ghost use Rattle.lay_abspos.specs.ViewportBounds.{ViewportFits};
    ghost use Rattle.lay_context.specs.Medium.{Medium as Plain};

    ghost Value = { Plain };

    ghost view = { λ m. record { viewport = m.viewport; face = m.face.value } };

    ghost invariant = { λ m. ViewportFits m.viewport };
}

impl Medium {
    pub fn new(viewport: ContainingBlock, face: Arc<Face>) -> Medium
        requires { ViewportFits viewport }
        ensures { result ≡ record { viewport = viewport; face = face.value } }
    {
        Medium { viewport, face }
    }

    /// The viewport.
    pub fn viewport(&self) -> ContainingBlock
        ensures viewport { result ≡ self.now.viewport }
        ensures fits { ViewportFits result }
    {
        self.viewport
    }

    /// The face, shared.
    pub fn face(&self) -> Result<Arc<Face>, NoMemory>
        ensures { IfOk result (λ f. f.value ≡ self.now.face) }
    {
        Ok(self.face.clone()?)
    }
}
