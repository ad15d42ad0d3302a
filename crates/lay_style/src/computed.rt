//! The computed styles of a document.

ghost use Rattle.std.specs.Prelude.{◌≡◌, ◌<◌, length, IfOk};
ghost use Rattle.lay_style.specs.ComputedStyle.{style_at};

use crate::style::Style;
use lay_units::NoMemory;
use std::alloc::Global;
use std::marker::Model;

/// The computed styles of a document's nodes, in document order.
#[derive(Drop)]
pub struct Computed {
    styles: Vec<Style>,
}

impl Model for Computed {
    ghost use Rattle.std.specs.Prelude.{List};
    ghost use Rattle.lay_style.specs.declared.style.Style.{Style};

    ghost Value = { List Style };

    ghost view = { λ c. c.styles.items };
}

/// The style at a place of a list of styles.
pub fn style_at(styles: &[Style], place: usize) -> &Style
    requires { place < length styles.now }
    ensures { result.now ≡ style_at styles.now place }
{
    &styles[place]
}

impl Computed {
    /// The list of these styles, which is taken over without a copy.
    pub fn new(styles: Vec<Style>) -> Computed
        ensures { result ≡ styles.items }
    {
        Computed { styles }
    }

    /// The styles, in document order.
    pub fn as_slice(&self) -> &[Style]
        ensures { result.now ≡ self.now }
    {
        self.styles.as_slice()
    }

    /// The style of the node at a place.
    pub fn at(&self, place: usize) -> &Style
        requires { place < length self.now }
        ensures { result.now ≡ style_at self.now place }
    {
        style_at(self.as_slice(), place)
    }

    /// The styles, given over without a copy.
    pub fn into_styles(self) -> Vec<Style>
        ensures { result.items ≡ self }
    {
        self.styles
    }

    /// An equal list.
    pub fn copy(&self, alloc: Global) -> Result<Computed, NoMemory>
        ensures { IfOk result (λ c. c ≡ self.now) }
    {
        Ok(Computed {
            styles: Vec::from_slice(alloc, self.styles.as_slice())?,
        })
    }
}
