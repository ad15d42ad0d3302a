//! Struts of used margins.

ghost use Rattle.lay_flow.specs.Pass.Struts.{StrutFits};

use lay_margins::Strut;

/// A strut that holds used margins.
#[derive(Clone, Copy)]
pub(crate) struct UsedStrut {
    pub strut: Strut,
    ghost fits: { StrutFits strut },
}
