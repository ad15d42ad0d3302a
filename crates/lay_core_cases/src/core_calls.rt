//! The calls on a core, without what is promised of them: a case asks for the answers alone.

ghost use Rattle.std.specs.Prelude.{◌≡◌, ◌<◌, ◌≤◌, []};

use crate::keys::cell_key;
use crate::said;
use lay_case_reading::{Key, Said, ids};
use lay_cell_work::claim_lists::{ClaimList, Outcomes};
use lay_cell_work::{Claim, Layout};
use lay_cells::Done;
use lay_context::scratch;
use lay_core::{Answer, Core, Idle, Next, Tally};
use lay_doc::{Doc, NodeId};
use lay_face::Face;
use lay_frag::{Tree, text_of};
use lay_history::edits::{Edits, Reply};
use lay_units::NoMemory;
use std::alloc::Global;
use std::sync::Arc;

/// More numbers than a case draws.
const MANY: u64 = 1000000;

/// The most claims that are handed out or taken at once.
pub(crate) const BATCH: u32 = 64;

/// What comes of asking a core for claims.
#[derive(Drop)]
pub(crate) enum Handed {
    /// These are handed out.
    Claims(ClaimList),
    /// None is, for this reason.
    Nothing(Said),
    /// None is asked for, or more than may be.
    OutOfBounds,
}

/// Numbers that a core tells: of granted claims, of drawn numbers, of accepted lists of edits and of entries of its history.
#[derive(Clone, Copy)]
pub(crate) struct Numbers {
    pub laid: u64,
    pub draws: u64,
    pub accepted: u64,
    pub entries: u64,
}

/// What a case asks of a core. The rest of the program knows a core by this alone, since a function that has one at hand takes long to
/// prove.
pub(crate) trait CoreCalls {
    /// The reply to a list of edits; None where no more calls of editors may come.
    fn reply_to_edits(&mut self, index: u32, edits: Edits) -> Option<Reply>;

    /// The reply to `latest`; None where no more calls of editors may come.
    fn reply_to_latest(&mut self, index: u32) -> Option<Reply>;

    /// The reply to `sync`; None where no more calls of editors may come.
    fn reply_to_sync(&mut self, index: u32) -> Option<Reply>;

    /// Lays out all that is dirty; None where too many numbers are drawn.
    fn settled(&mut self) -> Option<Said>;

    /// Publishes the present version.
    fn published(&mut self) -> Said;

    /// Claims the cell of a key.
    fn claimed(&mut self, key: Key) -> Answer;

    /// Claims the next cell.
    fn next_claim(&mut self) -> Next;

    /// Claims so many cells at most.
    fn some_claims(&mut self, alloc: Global, limit: u32) -> Result<Handed, NoMemory>;

    /// Finishes a claim.
    fn finished(&mut self, done: Done<Layout>) -> Said;

    /// Finishes several claims.
    fn all_finished(&mut self, outcomes: Outcomes) -> Tally;

    /// Gives a claim back.
    fn released(&mut self, claim: Claim) -> Said;

    /// How many claims of a cell were granted; None where there is no such cell.
    fn granted_of(&self, key: Key) -> Option<u64>;

    /// The numbers that it tells.
    fn numbers(&self) -> Numbers;

    /// The ids of the nodes of its document, in order.
    fn nodes(&self, alloc: Global) -> Result<Vec<NodeId>, NoMemory>;

    /// Of how many contexts the tree of a version is.
    fn contexts(&self, version: u64) -> Said;

    /// Whether the tree of the present version is written as that of a layout from nothing; `none` where it isn't published.
    fn as_scratch(&self, alloc: Global) -> Result<Said, NoMemory>;
}

impl CoreCalls for Core {
    fn reply_to_edits(&mut self, index: u32, edits: Edits) -> Option<Reply> {
        if self.calls_left() == 0 {
            return None;
        }
        Some(self.edit(1, index, edits))
    }

    fn reply_to_latest(&mut self, index: u32) -> Option<Reply> {
        if self.calls_left() == 0 {
            return None;
        }
        Some(self.latest(1, index))
    }

    fn reply_to_sync(&mut self, index: u32) -> Option<Reply> {
        if self.calls_left() == 0 {
            return None;
        }
        Some(self.sync(1, index))
    }

    fn settled(&mut self) -> Option<Said> {
        if self.draws() > MANY {
            return None;
        }
        Some(said::settled(self.settle()))
    }

    fn published(&mut self) -> Said {
        said::published(self.publish())
    }

    fn claimed(&mut self, key: Key) -> Answer {
        self.claim(cell_key(key))
    }

    fn next_claim(&mut self) -> Next {
        self.claim_next()
    }

    fn some_claims(&mut self, alloc: Global, limit: u32) -> Result<Handed, NoMemory> {
        if limit == 0 || limit > BATCH {
            return Ok(Handed::OutOfBounds);
        }
        let mut list = ClaimList::with_room(alloc, limit)?;
        match claim_some(self, limit, &mut list) {
            Ok(None) => Ok(Handed::Claims(list)),
            Ok(Some(idle)) => Ok(Handed::Nothing(said::idle(idle.kind()))),
            Err(NoMemory) => Ok(Handed::Nothing(Said::LACKS)),
        }
    }

    fn finished(&mut self, done: Done<Layout>) -> Said {
        said::finished(self.finish(done))
    }

    fn all_finished(&mut self, outcomes: Outcomes) -> Tally {
        self.finish_all(outcomes)
    }

    fn released(&mut self, claim: Claim) -> Said {
        said::released(self.give_back(claim))
    }

    fn granted_of(&self, key: Key) -> Option<u64> {
        self.laid_of(cell_key(key))
    }

    fn numbers(&self) -> Numbers {
        Numbers {
            laid: self.laid(),
            draws: self.draws(),
            accepted: self.accepted(),
            entries: self.history().len() as u64,
        }
    }

    fn nodes(&self, alloc: Global) -> Result<Vec<NodeId>, NoMemory> {
        ids(alloc, self.doc())
    }

    fn contexts(&self, version: u64) -> Said {
        match self.tree(version) {
            Some(tree) => Said::Number(tree.contexts().len() as u64),
            None => Said::Word("none"),
        }
    }

    fn as_scratch(&self, alloc: Global) -> Result<Said, NoMemory> {
        match self.tree(self.accepted()) {
            Some(tree) => is_as_scratch(alloc, self.doc(), self.face(), tree),
            None => Ok(Said::Word("none")),
        }
    }
}

fn claim_some(core: &mut Core, limit: u32, list: &mut ClaimList) -> Result<Option<Idle>, NoMemory>
    requires limit { 0 < limit }
    requires room { limit ≤ list.old.room }
    requires empty { list.old.claims ≡ [] }
{
    core.claim_some(limit, list)
}

fn is_as_scratch(
    alloc: Global,
    doc: &Doc,
    face: &Arc<Face>,
    tree: &Tree,
) -> Result<Said, NoMemory> {
    let kept = text_of(alloc, tree)?;
    let anew = text_of(alloc, &scratch(alloc, doc, face)?)?;
    let is_same = kept.as_str() == anew.as_str();
    Ok(Said::Word(if is_same { "same" } else { "other" }))
}
