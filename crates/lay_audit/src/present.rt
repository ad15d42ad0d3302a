//! What stands after the entries that were read.

ghost use Rattle.std.specs.Prelude.{◌≡◌, ◌+◌, ◌<◌, ◌^◌, ◌⊎◌, ◌==◌, [], IfOk, IfSome, OnOk, Some};
ghost use Rattle.std.specs.Prelude.{length, option_map, slice_get, slice_index_or, slice_set, ℕ};
ghost use Rattle.std.specs.Bool.{Decides};
ghost use Rattle.std.specs.List.{All};
ghost use Rattle.lay_face.specs.FaceValue.{FaceValue};
ghost use Rattle.lay_history.specs.declared.edits.command.Reply.{Reply as AReply};
ghost use Rattle.lay_history.specs.declared.edits.history.Entry.{Entry};
ghost use Rattle.lay_audit.specs.Presents.{Accepts, AllAnswered, Answers, AreCommandsWithin, IsPresent, IsPresentWithin, IsStep, Moves};

use crate::step::Step;
use lay_doc::Doc;
use lay_history::edits::{BatchFault, Cmd, CmdList, Edits, Reply, apply_all, check_all};
use lay_units::NoMemory;
use std::alloc::Global;
use std::marker::Model;

/// A document of the audit's own, which goes through the lists of edits that were accepted, and how far the editors have come.
#[derive(Drop)]
pub(crate) struct Present {
    doc: Doc,
    /// How many lists of edits were accepted.
    count: u64,
    /// The version that was published last.
    last: Option<u64>,
    /// How many commands of each editor are answered.
    next: Vec<usize>,
}

impl Model for Present {
    ghost use Rattle.lay_audit.specs.Presents.{PresentValue};

    ghost Value = { PresentValue };

    ghost view = { λ p. record { document = p.doc; count = p.count; last = p.last; next = p.next.items } };
}

impl Present {
    /// What stands before the first entry.
    pub(crate) fn new(alloc: Global, doc: &Doc, scripts: &[CmdList]) -> Result<Present, NoMemory>
        ensures is { IfOk result
            (λ p. (face : FaceValue) → IsPresent (record { init = doc.now; face = face; scripts = scripts.now }) [] p) }
        ensures count { IfOk result (λ p. p.count ≡ 0) }
        ensures editors { IfOk result (λ p. length p.next ≡ length scripts.now) }
    {
        Ok(Present {
            doc: doc.copy(alloc)?,
            count: 0,
            last: None,
            next: vec![in alloc; 0; scripts.len()]?,
        })
    }

    /// The document.
    pub(crate) fn doc(&self) -> &Doc
        ensures { result.now ≡ self.now.document }
    {
        &self.doc
    }

    /// How many lists of edits were accepted.
    pub(crate) fn count(&self) -> u64
        ensures { result ≡ self.now.count }
    {
        self.count
    }

    /// How many commands of the editor at a place are answered.
    pub(crate) fn next(&self, place: usize) -> usize
        requires { place < length self.now.next }
        ensures { result ≡ slice_index_or self.now.next place 0 }
    {
        self.next[place]
    }

    /// Whether the present version was published last.
    pub(crate) fn is_published(&self) -> bool
        ensures { Decides result (self.now.last ≡ Some self.now.count) }
    {
        match self.last {
            Some(version) => version == self.count,
            None => false,
        }
    }

    /// Whether all commands are answered.
    pub(crate) fn all_answered(&self, scripts: &[CmdList]) -> bool
        requires editors { length self.now.next ≡ length scripts.now }
        ensures { Decides result (AllAnswered scripts.now self.now) }
    {
        for place in 0..scripts.len() {
            if self.next[place] != scripts[place].len() {
                return false;
            }
        }
        true
    }

    /// The numbers that entries may have now are below 2^64.
    pub(crate) fn numbers_fit(&self, scripts: &[CmdList])
        requires count { self.now.count + 1 < 2 ^ 64 }
        requires lists { All AreCommandsWithin scripts.now }
        ensures { IsPresentWithin scripts.now self.now }
    {
        scripts_fit(scripts);
        indices_fit(&self.next);
    }

    /// The right reply to a command, beside that memory ran out.
    pub(crate) fn right_reply(
        &self,
        alloc: Global,
        command: &Cmd,
    ) -> Result<Option<Reply>, NoMemory>
        requires { self.now.count + 1 < 2 ^ 64 }
        ensures right { IfOk result (λ o. IfSome o (λ r. Answers self.now command.now r)) }
        ensures only { IfOk result (λ o. (r : AReply) → Answers self.now command.now r → (r ≡ Reply.NoMemory) ⊎ (o ≡ Some r)) }
    {
        match command {
            Cmd::Edits(edits) => Ok(Some(self.edits_reply(alloc, edits)?)),
            Cmd::Latest => Ok(self.last_shown()),
            Cmd::Sync => Ok(self.present_shown()),
        }
    }

    #[tactic(auto, using(crate::proofs::OnlyReplies::accepted_only, crate::proofs::OnlyReplies::refused_only))]
    fn edits_reply(&self, alloc: Global, edits: &Edits) -> Result<Reply, NoMemory>
        requires { self.now.count + 1 < 2 ^ 64 }
        ensures right { IfOk result (λ reply. Answers self.now (Cmd.Edits edits.now) reply) }
        ensures only { IfOk result (λ reply. (r : AReply) → Answers self.now (Cmd.Edits edits.now) r → (r ≡ Reply.NoMemory) ⊎ (reply ≡ r)) }
    {
        match check_all(&self.doc, alloc, edits) {
            Ok(()) => Ok(Reply::Accepted(self.count + 1)),
            Err(BatchFault::At { place, fault }) => Ok(Reply::Refused { place, fault }),
            Err(BatchFault::NoMemory) => Err(NoMemory),
        }
    }

    fn last_shown(&self) -> Option<Reply>
        ensures right { IfSome result (λ r. Answers self.now Cmd.Latest r) }
        ensures only { (r : AReply) → Answers self.now Cmd.Latest r → (r ≡ Reply.NoMemory) ⊎ (result ≡ Some r) }
    {
        match self.last {
            Some(version) => Some(Reply::Shown(version)),
            None => None,
        }
    }

    fn present_shown(&self) -> Option<Reply>
        ensures right { IfSome result (λ r. Answers self.now Cmd.Sync r) }
        ensures only { (r : AReply) → Answers self.now Cmd.Sync r → (r ≡ Reply.NoMemory) ⊎ (result ≡ Some r) }
    {
        if self.is_published() {
            Some(Reply::Shown(self.count))
        } else {
            None
        }
    }

    /// Whether memory may run out for a command: an edit alone that has a fault is refused for it.
    pub(crate) fn may_lack(&self, command: &Cmd) -> bool
        ensures { Decides result (Answers self.now command.now Reply.NoMemory) }
    {
        match command {
            Cmd::Edits(edits) => self.may_lack_edits(edits),
            _ => true,
        }
    }

    fn may_lack_edits(&self, edits: &Edits) -> bool
        ensures { Decides result (Answers self.now (Cmd.Edits edits.now) Reply.NoMemory) }
    {
        if edits.len() != 1 {
            return true;
        }
        self.doc.check(&edits.as_slice()[0]).is_ok()
    }

    /// Takes a step.
    pub(crate) fn take(
        &mut self,
        alloc: Global,
        scripts: &[CmdList],
        step: Step,
    ) -> Result<(), NoMemory>
        requires is { (e : Entry) × IsStep scripts.now self.old step e }
        requires editors { length self.old.next ≡ length scripts.now }
        ensures { OnOk result ((e : Entry) → IsStep scripts.now self.old step e → Moves self.old step e self.new) }
    {
        match step {
            Step::Publish => {
                self.last = Some(self.count);
                Ok(())
            }
            Step::Answer { place, reply } => self.answer(alloc, scripts, place, reply),
        }
    }

    fn answer(
        &mut self,
        alloc: Global,
        scripts: &[CmdList],
        place: usize,
        reply: Reply,
    ) -> Result<(), NoMemory>
        requires is { (e : Entry) × IsStep scripts.now self.old (Step.Answer place reply) e }
        requires editors { length self.old.next ≡ length scripts.now }
        ensures { OnOk result
            ((e : Entry) → IsStep scripts.now self.old (Step.Answer place reply) e → Moves self.old (Step.Answer place reply) e self.new) }
    {
        match reply {
            Reply::Accepted(version) => self.answer_accepted(alloc, scripts, place, version),
            _ => {
                self.count_answer(scripts, place);
                Ok(())
            }
        }
    }

    fn answer_accepted(
        &mut self,
        alloc: Global,
        scripts: &[CmdList],
        place: usize,
        version: u64,
    ) -> Result<(), NoMemory>
        requires is { (e : Entry) × IsStep scripts.now self.old (Step.Answer place (Reply.Accepted version)) e }
        requires editors { length self.old.next ≡ length scripts.now }
        ensures { OnOk result ((e : Entry) → IsStep scripts.now self.old (Step.Answer place (Reply.Accepted version)) e
            → Moves self.old (Step.Answer place (Reply.Accepted version)) e self.new) }
    {
        let index = self.next(place);
        let Some(command) = command_at(scripts, place, index) else {
            unreachable!();
        };
        self.accept(alloc, command, version)?;
        self.count_answer(scripts, place);
        Ok(())
    }

    /// The next command of the editor at a place is answered.
    fn count_answer(&mut self, scripts: &[CmdList], place: usize)
        requires place { place < length self.old.next }
        requires some { slice_index_or self.old.next place 0 < length (slice_index_or scripts.now place []) }
        requires editors { length self.old.next ≡ length scripts.now }
        ensures document { self.new.document ≡ self.old.document }
        ensures count { self.new.count ≡ self.old.count }
        ensures last { self.new.last ≡ self.old.last }
        ensures next { self.new.next ≡ slice_set self.old.next place (slice_index_or self.old.next place 0 + 1) }
    {
        let _count = script_at(scripts, place).len();
        self.next[place] += 1;
    }

    fn accept(&mut self, alloc: Global, command: &Cmd, version: u64) -> Result<(), NoMemory>
        requires { Answers self.old command.now (Reply.Accepted version) }
        ensures accepts { OnOk result (Accepts self.old command.now self.new) }
        ensures next { OnOk result (self.new.next ≡ self.old.next) }
    {
        match command {
            Cmd::Edits(edits) => match apply_all(&mut self.doc, alloc, edits) {
                Ok(()) => {
                    self.count = version;
                    Ok(())
                }
                Err(BatchFault::NoMemory) => Err(NoMemory),
                Err(BatchFault::At { .. }) => unreachable!(),
            },
            _ => unreachable!(),
        }
    }
}

/// The commands of the editor at a place.
fn script_at(scripts: &[CmdList], place: usize) -> &[Cmd]
    requires { place < length scripts.now }
    ensures { result.now ≡ slice_index_or scripts.now place [] }
{
    scripts[place].as_slice()
}

/// The command with an index of the editor at a place.
pub(crate) fn command_at(scripts: &[CmdList], place: usize, index: usize) -> Option<&Cmd>
    requires { place < length scripts.now }
    ensures { option_map (λ c. c.now) result ≡ slice_get (slice_index_or scripts.now place []) index }
{
    script_at(scripts, place).get(index)
}

fn scripts_fit(scripts: &[CmdList])
    ensures { length scripts.now + 1 < 2 ^ 64 }
{
    let _count = scripts.len() + 1;
}

fn indices_fit(next: &[usize])
    ensures { (place : ℕ) → slice_index_or next.now place 0 < 2 ^ 64 }
{}
