//! Lists of edits.

ghost use Rattle.std.specs.Prelude.{◌≡◌, ◌<◌, ◌++◌, ◌∷◌, [], length, false, IfOk, OnOk, OnErr};
ghost use Rattle.lay_history.specs.Edits.EditLists.{IsEditList};

use lay_doc::Edit;
use lay_units::NoMemory;
use std::alloc::Global;
use std::marker::Model;

/// The most edits that a list has.
pub const MOST_EDITS: usize = 1024;

/// A list of 1 to 1,024 edits, which a document takes whole or not at all.
#[derive(Drop)]
pub struct Edits {
    items: Vec<Edit>,
}

impl Model for Edits {
    ghost use Rattle.std.specs.Prelude.{List};
    ghost use Rattle.lay_doc.specs.declared.edit.Edit.{Edit};
    ghost use Rattle.lay_history.specs.Edits.EditLists.{IsEditList};

    ghost Value = { List Edit };

    ghost view = { λ e. e.items.items };

    ghost invariant = { λ e. IsEditList e.items.items };
}

impl Edits {
    /// A list of one edit.
    pub fn one(alloc: Global, edit: Edit) -> Result<Edits, NoMemory>
        ensures { IfOk result (λ edits. edits ≡ edit ∷ []) }
    {
        let mut items = Vec::new(alloc);
        items.push(edit)?;
        Ok(Edits { items })
    }

    /// Adds an edit as the last one. On an error all is as before.
    pub fn push(&mut self, edit: Edit) -> Result<(), NoMemory>
        requires { length self.old < 1024 }
        ensures ok { OnOk result (self.new ≡ self.old ++ edit ∷ []) }
        ensures err { OnErr result (self.new ≡ self.old) }
    {
        self.items.push(edit)?;
        Ok(())
    }

    /// How many there are.
    pub fn len(&self) -> usize
        ensures value { result ≡ length self.now }
        ensures within { IsEditList self.now }
    {
        self.items.len()
    }

    /// There is one at least.
    pub fn is_empty(&self) -> bool
        ensures { result ≡ false }
    {
        self.items.is_empty()
    }

    /// The edits, in order.
    pub fn as_slice(&self) -> &[Edit]
        ensures edits { result.now ≡ self.now }
        ensures within { IsEditList self.now }
    {
        self.items.as_slice()
    }
}
