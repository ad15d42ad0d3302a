//! The commands of an editor, and the replies to them.

ghost use Rattle.std.specs.Prelude.{◌≡◌, ◌==◌, ◌++◌, ◌∷◌, [], length, OnOk, OnErr};

use crate::edits::edits::Edits;
use lay_doc::EditFault;
use lay_units::NoMemory;
use std::alloc::Global;
use std::marker::Model;

/// What an editor asks for.
#[derive(Drop)]
pub enum Cmd {
    /// To change the document by a list of edits, by all of them or by none.
    Edits(Edits),
    /// To be shown the last published version, without waiting for its own edits.
    Latest,
    /// To be shown the version with all edits that were accepted so far.
    Sync,
}

/// What a command is answered. A version is the number of accepted lists of edits of its document.
#[derive(Clone, Copy)]
pub enum Reply {
    /// The list of edits was applied, and made this version.
    Accepted(u64),
    /// The edit at this place of the list, counted from 0, is the first that has a fault, and the list changed nothing.
    Refused { place: u32, fault: EditFault },
    /// The tree of this version was shown.
    Shown(u64),
    /// Memory ran out: the document is as before.
    NoMemory,
}

/// The commands of one editor, in order.
#[derive(Drop)]
pub struct CmdList {
    items: Vec<Cmd>,
}

impl Model for CmdList {
    ghost use Rattle.std.specs.Prelude.{List};
    ghost use Rattle.lay_history.specs.declared.edits.command.Cmd.{Cmd};

    ghost Value = { List Cmd };

    ghost view = { λ c. c.items.items };
}

impl CmdList {
    /// No commands; nothing is allocated.
    pub fn new(alloc: Global) -> CmdList
        ensures { result ≡ [] }
    {
        CmdList {
            items: Vec::new(alloc),
        }
    }

    /// Adds a command as the last one. On an error all is as before.
    pub fn push(&mut self, command: Cmd) -> Result<(), NoMemory>
        ensures ok { OnOk result (self.new ≡ self.old ++ command ∷ []) }
        ensures err { OnErr result (self.new ≡ self.old) }
    {
        self.items.push(command)?;
        Ok(())
    }

    /// How many there are.
    pub fn len(&self) -> usize
        ensures { result ≡ length self.now }
    {
        self.items.len()
    }

    /// Whether there are none.
    pub fn is_empty(&self) -> bool
        ensures { result ≡ (length self.now == 0) }
    {
        self.items.is_empty()
    }

    /// The commands, in order.
    pub fn as_slice(&self) -> &[Cmd]
        ensures { result.now ≡ self.now }
    {
        self.items.as_slice()
    }

    /// The commands themselves, in order.
    pub fn into_vec(self) -> Vec<Cmd>
        ensures { result.items ≡ self }
    {
        self.items
    }
}
