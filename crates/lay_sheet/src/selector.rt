//! Selectors.

ghost use Rattle.std.specs.Prelude.{◌≡◌};

use std::marker::Model;

/// A name in a selector, which contracts see as the list of its bytes. Names are compared exactly.
#[derive(Drop)]
pub struct Name {
    bytes: Vec<u8>,
}

impl Model for Name {
    ghost use Rattle.std.specs.Prelude.{List, ℕ};

    ghost Value = { List ℕ };

    ghost view = { λ n. n.bytes.items };
}

impl Name {
    /// The name of these bytes, which are taken over without a copy.
    pub(crate) fn new(bytes: Vec<u8>) -> Name
        ensures { result ≡ bytes.items }
    {
        Name { bytes }
    }

    /// Its bytes.
    pub fn as_bytes(&self) -> &[u8]
        ensures { result.now ≡ self.now }
    {
        self.bytes.as_slice()
    }
}

/// A simple selector: what it asks of an element.
#[derive(Drop)]
pub enum Simple {
    Universal,
    Tag(Name),
    Class(Name),
    Label(Name),
}

/// How a simple selector is joined to the one before it.
#[derive(Clone, Copy)]
pub enum Joint {
    /// It is about the same element.
    Same,
    Descendant,
    Child,
    Adjacent,
}

/// A simple selector with the joint before it.
#[derive(Drop)]
pub struct Step {
    pub joint: Joint,
    pub simple: Simple,
}

/// A selector, whose steps are in the order of its text. There is at least one.
#[derive(Drop)]
pub struct Selector {
    steps: Vec<Step>,
}

impl Model for Selector {
    ghost use Rattle.std.specs.Prelude.{List};
    ghost use Rattle.lay_sheet.specs.declared.selector.Step.{Step};

    ghost Value = { List Step };

    ghost view = { λ s. s.steps.items };
}

impl Selector {
    pub(crate) fn new(steps: Vec<Step>) -> Selector
        ensures { result ≡ steps.items }
    {
        Selector { steps }
    }

    /// Its steps, in the order of its text.
    pub fn as_slice(&self) -> &[Step]
        ensures { result.now ≡ self.now }
    {
        self.steps.as_slice()
    }
}
