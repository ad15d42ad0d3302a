//! What decides among the declarations of a sheet.

ghost use Rattle.std.specs.Prelude.{◌≡◌};
ghost use Rattle.lay_cascade.specs.Styled.Weights.{bit, is_lighter};

use crate::Specificity;

/// What decides among the declarations of a sheet: the first of these that differs.
#[derive(Clone, Copy)]
pub struct Weight {
    /// Whether it is marked as important.
    pub important: bool,
    /// That of a selector that matches.
    pub specificity: Specificity,
    /// The place of its rule set in the sheet.
    pub rule: usize,
    /// Its place in its rule set.
    pub place: usize,
}

impl Weight {
    /// Whether the other one is greater.
    pub fn is_less(self, other: Weight) -> bool
        ensures { result ≡ is_lighter self other }
    {
        let (a, b) = (self.specificity, other.specificity);
        if bit(self.important) != bit(other.important) {
            return bit(self.important) < bit(other.important);
        }
        if a.labels != b.labels {
            return a.labels < b.labels;
        }
        if a.classes != b.classes {
            return a.classes < b.classes;
        }
        if a.tags != b.tags {
            return a.tags < b.tags;
        }
        if self.rule != other.rule {
            return self.rule < other.rule;
        }
        self.place < other.place
    }
}

fn bit(important: bool) -> usize
    ensures { result ≡ bit important }
{
    if important { 1 } else { 0 }
}
