//! What a root of a context is given.

ghost use Rattle.std.specs.Prelude.{◌≡◌};

use crate::root_spot::RootSpot;
use lay_context::Input;
use std::marker::Model;

/// What the task of a root is given from outside its cell. Which of its boxes are those of other roots of the context is said as far as
/// their values are asked for, and where the box of an anonymous root stands as far as that is.
#[derive(Drop)]
pub struct RootInput {
    given: Input,
    links: Vec<Option<usize>>,
    around: Option<RootSpot>,
}

impl Model for RootInput {
    ghost use Rattle.lay_cell_work.specs.CellInputs.{RootInput as Plain};

    ghost Value = { Plain };

    ghost view = { λ x. record { given = x.given; links = x.links.items; around = x.around } };
}

impl RootInput {
    /// These.
    pub fn new(given: Input, links: Vec<Option<usize>>, around: Option<RootSpot>) -> RootInput
        ensures { result ≡ record { given = given; links = links.items; around = around } }
    {
        RootInput {
            given,
            links,
            around,
        }
    }

    /// What it is given, without what other roots give it.
    pub fn given(&self) -> &Input
        ensures { result.now ≡ self.now.given }
    {
        &self.given
    }

    /// Which of its boxes are those of other roots.
    pub fn links(&self) -> &[Option<usize>]
        ensures { result.now ≡ self.now.links }
    {
        self.links.as_slice()
    }

    /// Where its own box stands, of an anonymous one.
    pub fn around(&self) -> Option<RootSpot>
        ensures { result ≡ self.now.around }
    {
        self.around
    }
}
