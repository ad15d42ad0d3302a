//! Specificity.

ghost use Rattle.std.specs.Prelude.{◌≡◌, ◌+◌, ◌<◌, ◌^◌};
ghost use Rattle.lay_cascade.specs.Specificity.{counted, specificity_of};

use lay_sheet::{Selector, Simple};

/// How many labels, classes and tags a selector names.
#[derive(Clone, Copy)]
pub struct Specificity {
    pub labels: usize,
    pub classes: usize,
    pub tags: usize,
}

fn counted(simple: &Simple, before: Specificity) -> Specificity
    requires labels { before.labels + 1 < 2 ^ 64 }
    requires classes { before.classes + 1 < 2 ^ 64 }
    requires tags { before.tags + 1 < 2 ^ 64 }
    ensures { result ≡ counted simple.now before }
{
    let (labels, classes, tags) = (before.labels, before.classes, before.tags);
    match simple {
        Simple::Universal => before,
        Simple::Tag(_) => Specificity {
            labels,
            classes,
            tags: tags + 1,
        },
        Simple::Class(_) => Specificity {
            labels,
            classes: classes + 1,
            tags,
        },
        Simple::Label(_) => Specificity {
            labels: labels + 1,
            classes,
            tags,
        },
    }
}

/// The specificity of a selector.
pub fn specificity_of(selector: &Selector) -> Specificity
    ensures { result ≡ specificity_of selector.now }
{
    let steps = selector.as_slice();
    let mut found = Specificity {
        labels: 0,
        classes: 0,
        tags: 0,
    };
    for done in 0..steps.len() {
        found = counted(&steps[steps.len() - 1 - done].simple, found);
    }
    found
}
