//! Runs of consecutive siblings (CSS 2.2, 17.2.1).

ghost use Rattle.std.specs.Prelude.{◌≡◌, ◌++◌, ◌∷◌, [], Bool, List, OnOk, IfOk};
ghost use Rattle.std.specs.List.{list_any};
ghost use Rattle.lay_boxgen.specs.declared.facts.Facts.{Facts};
ghost use Rattle.lay_boxgen.specs.Boxes.{Tree};
ghost use Rattle.lay_boxgen.specs.Runs.{gathered, gathered_from, run_over, anonymous_facts, anonymous_box, is_faulty_box};

use crate::facts::{Facts, Form};
use crate::forms::is_white;
use crate::subtree::Subtree;
use lay_box_tree::Flow;
use lay_units::NoMemory;
use std::alloc::Global;

/// What replaces runs of consecutive faulty children of a box. The rule knows the box.
pub trait RunRule {
    ghost faulty: { Self → Facts → Bool };

    ghost closed: { Self → List Tree → List Tree };

    /// Whether a child is faulty.
    fn is_faulty(&self, child: Facts) -> bool
        ensures { result ≡ faulty self.now child };

    /// Puts what stands for a run at the end of `out`.
    fn close(
        &self,
        alloc: Global,
        run: Vec<Subtree>,
        out: &mut Vec<Subtree>,
    ) -> Result<(), NoMemory>
        ensures { OnOk result (out.new.items ≡ out.old.items ++ closed self.now run.items) };
}

/// Children on the way: what is done, the open run, and the white space after it.
#[derive(Drop)]
struct Gathering {
    done: Vec<Subtree>,
    run: Vec<Subtree>,
    gap: Vec<Subtree>,
}

impl Gathering {
    fn new(alloc: Global) -> Gathering
        ensures { (result.done.items ≡ []) × (result.run.items ≡ []) × (result.gap.items ≡ []) }
    {
        Gathering {
            done: Vec::new(alloc),
            run: Vec::new(alloc),
            gap: Vec::new(alloc),
        }
    }

    /// Ends the run, if one is open.
    fn end_run<R: RunRule>(&mut self, alloc: Global, rule: &R) -> Result<(), NoMemory>
        ensures done { OnOk result
            (self.new.done.items ≡ self.old.done.items ++ run_over (R.closed rule.now) self.old.run.items self.old.gap.items) }
        ensures run { OnOk result (self.new.run.items ≡ []) }
        ensures gap { OnOk result (self.new.gap.items ≡ []) }
    {
        if !self.run.is_empty() {
            let run = std::mem::replace(&mut self.run, Vec::new(alloc));
            rule.close(alloc, run, &mut self.done)?;
        }
        self.done.append(&mut self.gap)?;
        Ok(())
    }

    /// Takes the next child.
    fn take<R: RunRule>(&mut self, alloc: Global, rule: &R, child: Subtree) -> Result<(), NoMemory>
        ensures { OnOk result ((rest : List Tree) →
            self.new.done.items ++ gathered_from (R.faulty rule.now) (R.closed rule.now) self.new.run.items self.new.gap.items rest
            ≡ self.old.done.items
            ++ gathered_from (R.faulty rule.now) (R.closed rule.now) self.old.run.items self.old.gap.items (child ∷ rest)) }
    {
        let facts = child.facts();
        if rule.is_faulty(facts) {
            self.run.append(&mut self.gap)?;
            self.run.push(child)?;
        } else if !self.run.is_empty() && is_white(facts.form) {
            self.gap.push(child)?;
        } else {
            self.end_run(alloc, rule)?;
            self.done.push(child)?;
        }
        Ok(())
    }
}

/// Whether a child is faulty.
pub fn has_faulty<R: RunRule>(rule: &R, children: &[Subtree]) -> bool
    ensures { result ≡ list_any (is_faulty_box (R.faulty rule.now)) children.now }
{
    children.iter().any(|child| rule.is_faulty(child.facts()))
}

/// The children, with each run of consecutive faulty ones replaced. Each child is moved a bounded number
/// of times.
pub fn gather<R: RunRule>(
    alloc: Global,
    rule: &R,
    children: Vec<Subtree>,
) -> Result<Vec<Subtree>, NoMemory>
    ensures { IfOk result (λ v. v.items ≡ gathered (R.faulty rule.now) (R.closed rule.now) children.items) }
{
    if !has_faulty(rule, children.as_slice()) {
        return Ok(children);
    }
    let mut gathering = Gathering::new(alloc);
    for child in children {
        gathering.take(alloc, rule, child)?;
    }
    gathering.end_run(alloc, rule)?;
    Ok(gathering.done)
}

/// The facts of an anonymous box in a box with the facts `parent`.
fn anonymous_facts(parent: Facts, form: Form) -> Facts
    ensures { result ≡ anonymous_facts parent form }
{
    Facts {
        node: parent.node,
        place: parent.place,
        form,
        anonymous: true,
        flow: Flow::InFlow,
        inner: false,
    }
}

/// An anonymous box round a run of children of a box.
pub fn anonymous_box(parent: Facts, form: Form, run: Vec<Subtree>) -> Subtree
    ensures { result ≡ anonymous_box parent form run.items }
{
    Subtree::new(anonymous_facts(parent, form), run)
}
