//! Lists of texts.

ghost use Rattle.std.specs.Prelude.{◌≡◌};

use lay_units::Text;
use std::marker::Model;

/// Texts, in order.
#[derive(Drop)]
pub struct TextList {
    items: Vec<Text>,
}

impl Model for TextList {
    ghost use Rattle.std.specs.Prelude.{List, ℕ};

    ghost Value = { List (List ℕ) };

    ghost view = { λ l. l.items.items };
}

impl TextList {
    /// The list of these texts, which is taken over without a copy.
    pub fn new(items: Vec<Text>) -> TextList
        ensures { result ≡ items.items }
    {
        TextList { items }
    }

    /// The texts, in order.
    pub fn as_slice(&self) -> &[Text]
        ensures { result.now ≡ self.now }
    {
        self.items.as_slice()
    }
}
