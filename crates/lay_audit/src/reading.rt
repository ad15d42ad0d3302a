//! A report that is read line by line.

ghost use Rattle.std.specs.Prelude.{◌≡◌, ◌+◌, ◌<◌, ◌≤◌, ◌^◌, [], IfOk, List, OnOk, Some, length, ℕ};
ghost use Rattle.lay_doc.specs.Document.{Document};
ghost use Rattle.lay_history.specs.declared.edits.command.Cmd.{Cmd};
ghost use Rattle.lay_face.specs.FaceValue.{FaceValue};
ghost use Rattle.lay_audit.specs.Lines.{behind_line};
ghost use Rattle.lay_audit.specs.NextLines.{StandsNext};
ghost use Rattle.lay_audit.specs.Presents.{shown_in};
ghost use Rattle.lay_audit.specs.Readings.{HasLayout, IsRead, IsSteady, ReadsTo, basis_of, pending_of};

use crate::comparing::{compare, split_line};
use crate::finding::find_step;
use crate::last_tree::LastTree;
use crate::list_lengths::lists_fit;
use crate::next::Next;
use crate::present::Present;
use crate::step::{Step, is_shown};
use lay_context::one_solution;
use lay_doc::Doc;
use lay_face::Face;
use lay_history::edits::{CmdList, Reply};
use lay_units::NoMemory;
use std::alloc::Global;
use std::marker::Model;
use std::sync::Arc;

/// How far a report is read.
#[derive(Drop)]
pub(crate) struct Reading<'a> {
    /// How many lines were read.
    pub(crate) lines: u64,
    /// What is left of the report.
    pub(crate) rest: &'a [u8],
    pub(crate) present: Present,
    pub(crate) tree: LastTree,
}

impl<'a> Model for Reading<'a> {
    ghost use Rattle.lay_audit.specs.Readings.{ReadingValue};

    ghost Value = { ReadingValue };

    ghost view = { λ r. record { lines = r.lines; rest = r.rest.now; present = r.present; tree = r.tree } };
}

impl<'a> Reading<'a> {
    /// Nothing was read.
    pub(crate) fn new(
        alloc: Global,
        doc: &Doc,
        scripts: &[CmdList],
        report: &'a [u8],
    ) -> Result<Reading<'a>, NoMemory>
        ensures read { IfOk result (λ r. (face : FaceValue) → IsRead (basis_of doc.now face scripts.now) report.now r []) }
        ensures steady { IfOk result (λ r. IsSteady scripts.now r) }
    {
        report_fits(report);
        lists_fit(scripts);
        let present = Present::new(alloc, doc, scripts)?;
        let tree = LastTree::none(alloc);
        Ok(Reading {
            lines: 0,
            rest: report,
            present,
            tree,
        })
    }

    /// Reads the next entry, with the lines of the tree that it shows.
    pub(crate) fn read_next(
        &mut self,
        alloc: Global,
        scripts: &[CmdList],
        face: &Arc<Face>,
    ) -> Result<Next, NoMemory>
        requires { IsSteady scripts.now self.old }
        ensures reads { IfOk result
            (λ n. (init : Document) (text : List ℕ) → IsRead (basis_of init face.now.value scripts.now) text self.old []
            → ReadsTo (basis_of init face.now.value scripts.now) text self.new n) }
        ensures steady { OnOk result (IsSteady scripts.now self.new) }
        ensures shorter { IfOk result (λ n. n ≡ Next.Entry → length self.new.rest < length self.old.rest) }
    {
        let Some(step) = find_step(alloc, scripts, &self.present, self.rest)? else {
            return Ok(Next::NoEntry);
        };
        self.take(alloc, scripts, face, step)?;
        if is_shown(step) {
            self.read_tree(alloc, face)
        } else {
            Ok(Next::Entry)
        }
    }

    /// Reads the line of a step's entry.
    fn take(
        &mut self,
        alloc: Global,
        scripts: &[CmdList],
        face: &Arc<Face>,
        step: Step,
    ) -> Result<(), NoMemory>
        requires steady { IsSteady scripts.now self.old }
        requires next { StandsNext scripts.now self.old.present self.old.rest step }
        ensures reads { OnOk result ((init : Document) (text : List ℕ) → IsRead (basis_of init face.now.value scripts.now) text self.old []
            → IsRead (basis_of init face.now.value scripts.now) text self.new (pending_of (shown_in step) self.new.tree.text)) }
        ensures steady { OnOk result (IsSteady scripts.now self.new) }
        ensures shorter { OnOk result (length self.new.rest < length self.old.rest) }
    {
        match step {
            Step::Answer { place, reply } => self.take_answer(alloc, scripts, place, reply),
            Step::Publish => self.take_publication(alloc, scripts, face),
        }
    }

    fn take_answer(
        &mut self,
        alloc: Global,
        scripts: &[CmdList],
        place: usize,
        reply: Reply,
    ) -> Result<(), NoMemory>
        requires steady { IsSteady scripts.now self.old }
        requires next { StandsNext scripts.now self.old.present self.old.rest (Step.Answer place reply) }
        ensures reads { OnOk result
            ((init : Document) (face : FaceValue) (text : List ℕ) → IsRead (basis_of init face scripts.now) text self.old []
            → IsRead (basis_of init face scripts.now) text self.new (pending_of (shown_in (Step.Answer place reply)) self.new.tree.text)) }
        ensures steady { OnOk result (IsSteady scripts.now self.new) }
        ensures shorter { OnOk result (length self.new.rest < length self.old.rest) }
    {
        one_solution();
        self.present.numbers_fit(scripts);
        self.present
            .take(alloc, scripts, Step::Answer { place, reply })?;
        self.pass_line();
        Ok(())
    }

    fn take_publication(
        &mut self,
        alloc: Global,
        scripts: &[CmdList],
        face: &Arc<Face>,
    ) -> Result<(), NoMemory>
        requires steady { IsSteady scripts.now self.old }
        requires next { StandsNext scripts.now self.old.present self.old.rest Step.Publish }
        ensures reads { OnOk result ((init : Document) (text : List ℕ) → IsRead (basis_of init face.now.value scripts.now) text self.old []
            → IsRead (basis_of init face.now.value scripts.now) text self.new (pending_of (shown_in Step.Publish) self.new.tree.text)) }
        ensures steady { OnOk result (IsSteady scripts.now self.new) }
        ensures shorter { OnOk result (length self.new.rest < length self.old.rest) }
    {
        one_solution();
        self.present.numbers_fit(scripts);
        self.tree = LastTree::of(alloc, self.present.doc(), face)?;
        self.present.take(alloc, scripts, Step::Publish)?;
        self.pass_line();
        Ok(())
    }

    /// Passes the line that stands next.
    fn pass_line(&mut self)
        requires { self.old.lines + 1 < 2 ^ 64 }
        ensures rest { self.new.rest ≡ behind_line self.old.rest }
        ensures lines { self.new.lines ≡ self.old.lines + 1 }
        ensures present { self.new.present ≡ self.old.present }
        ensures tree { self.new.tree ≡ self.old.tree }
    {
        self.rest = split_line(self.rest).1;
        self.lines += 1;
    }

    /// Reads the lines of the tree that was published last.
    fn read_tree(&mut self, alloc: Global, face: &Arc<Face>) -> Result<Next, NoMemory>
        requires room { self.old.lines + length self.old.rest + 1 < 2 ^ 64 }
        ensures reads { IfOk result (λ n. (init : Document) (scripts : List (List Cmd)) (text : List ℕ)
            → IsRead (basis_of init face.now.value scripts) text self.old self.old.tree.text
            → ReadsTo (basis_of init face.now.value scripts) text self.new n) }
        ensures shows { IfOk result (λ n. n ≡ Next.NoEntry → ⊥) }
        ensures room { self.new.lines + length self.new.rest ≤ self.old.lines + length self.old.rest }
        ensures further { self.old.lines ≤ self.new.lines }
        ensures present { self.new.present ≡ self.old.present }
    {
        one_solution();
        match compare(self.tree.text(), self.rest) {
            Ok((lines, rest)) => {
                self.lines += lines;
                self.rest = rest;
                Ok(Next::Entry)
            }
            Err(lines) => {
                can_complete(alloc, &self.present, face)?;
                Ok(Next::Bad(self.lines + lines + 1))
            }
        }
    }
}

/// The present document has a layout, unless its version is published already. So its editors can come to an end, each
/// command that is left being refused: by its fault, or else for want of memory.
pub(crate) fn can_complete(
    alloc: Global,
    present: &Present,
    face: &Arc<Face>,
) -> Result<(), NoMemory>
    ensures { OnOk result ((present.now.last ≡ Some present.now.count → ⊥) → HasLayout present.now.document face.now.value) }
{
    if !present.is_published() {
        LastTree::of(alloc, present.doc(), face)?;
    }
    Ok(())
}

fn report_fits(report: &[u8])
    ensures { length report.now + 1 < 2 ^ 64 }
{
    let _count = report.len() + 1;
}
