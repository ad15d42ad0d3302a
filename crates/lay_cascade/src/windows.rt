//! Windows of a selector: at most 64 of its steps that follow one another, with words that have a truth value for each.

ghost use Rattle.std.specs.Prelude.{ℕ, ◌≡◌, ◌+◌, ◌<◌, ◌≤◌, Some, IfOk, OnOk, length, option_map};
ghost use Rattle.std.specs.List.{slice_get};
ghost use Rattle.lay_sheet.specs.declared.selector.Step.{Step as StepValue};
ghost use Rattle.lay_cascade.specs.Windows.{joint_number, asks_universal, asks_joint, name_in, mask_of, AsksMore, IsMask, AreNames, AreJoints, IsWindow};

use crate::words::{BITS, with_bit, with_told};
use lay_sheet::{Joint, Simple, Step};
use lay_units::NoMemory;
use std::alloc::Global;
use std::collections::HashMap;

/// Where a node has names.
#[derive(Clone, Copy)]
pub(crate) enum Place {
    Tag,
    Label,
    Classes,
}

/// For each name, which steps ask for it at one place.
#[derive(Drop)]
pub(crate) struct NameMasks<'a> {
    words: HashMap<&'a [u8], u64>,
}

/// For each joint, which steps have it.
#[derive(Clone, Copy)]
pub(crate) struct JointMasks {
    pub same: u64,
    pub child: u64,
    pub adjacent: u64,
    pub descendant: u64,
}

/// Some steps of a selector, from one place on, with which of them ask for what.
#[derive(Drop)]
pub(crate) struct Window<'a> {
    pub steps: &'a [Step],
    pub from: usize,
    pub count: usize,
    pub joints: JointMasks,
    pub universal: u64,
    pub tags: NameMasks<'a>,
    pub labels: NameMasks<'a>,
    pub classes: NameMasks<'a>,
}

/// The name that a simple selector asks for at a place.
fn name_in(simple: &Simple, place: Place) -> Option<&[u8]>
    ensures { option_map (λ n. n.now) result ≡ name_in place simple.now }
{
    match (simple, place) {
        (Simple::Tag(name), Place::Tag) => Some(name.as_bytes()),
        (Simple::Label(name), Place::Label) => Some(name.as_bytes()),
        (Simple::Class(name), Place::Classes) => Some(name.as_bytes()),
        _ => None,
    }
}

fn joint_number(joint: Joint) -> u8
    ensures { result ≡ joint_number joint }
{
    match joint {
        Joint::Same => 0,
        Joint::Descendant => 1,
        Joint::Child => 2,
        Joint::Adjacent => 3,
    }
}

fn is_joined(step: &Step, joint: Joint) -> bool
    ensures { result ≡ asks_joint joint step.now }
{
    joint_number(step.joint) == joint_number(joint)
}

fn is_universal(simple: &Simple) -> bool
    ensures { result ≡ asks_universal simple.now }
{
    match simple {
        Simple::Universal => true,
        _ => false,
    }
}

fn step_at(steps: &[Step], k: usize) -> &Step
    requires { k < length steps.now }
    ensures { slice_get steps.now k ≡ Some result.now }
{
    &steps[k]
}

impl<'a> NameMasks<'a> {
    /// Which steps ask for a name.
    pub(crate) fn of(&self, name: &[u8]) -> u64
        ensures { result ≡ mask_of self.now name.now }
    {
        match self.words.get(name) {
            Some(word) => *word,
            None => 0,
        }
    }

    /// Notes that a step asks for a name.
    fn add(&mut self, name: &'a [u8], j: usize) -> Result<(), NoMemory>
        requires { j < 64 }
        ensures { OnOk result (AsksMore j name.now self.old self.new) }
    {
        let word = with_bit(self.of(name), j);
        self.words.insert(name, word)?;
        Ok(())
    }
}

/// For each name, which of some steps ask for it at a place.
fn names_of<'a>(
    alloc: Global,
    steps: &'a [Step],
    from: usize,
    count: usize,
    place: Place,
) -> Result<NameMasks<'a>, NoMemory>
    requires within { from + count ≤ length steps.now }
    requires few { count ≤ 64 }
    ensures { IfOk result (AreNames steps.now from count place) }
{
    let mut masks = NameMasks {
        words: HashMap::new(alloc),
    };
    for j in 0..count {
        match name_in(&step_at(steps, from + j).simple, place) {
            Some(name) => masks.add(name, j)?,
            None => {}
        }
    }
    Ok(masks)
}

/// Which of some steps are joined in one way.
fn joined_by(steps: &[Step], from: usize, count: usize, joint: Joint) -> u64
    requires within { from + count ≤ length steps.now }
    requires few { count ≤ 64 }
    ensures { IsMask steps.now from count (asks_joint joint) result }
{
    let mut word = 0;
    for j in 0..count {
        let told = is_joined(step_at(steps, from + j), joint);
        word = with_told(word, j, told);
    }
    word
}

/// Which of some steps ask for any element.
fn universal_of(steps: &[Step], from: usize, count: usize) -> u64
    requires within { from + count ≤ length steps.now }
    requires few { count ≤ 64 }
    ensures { IsMask steps.now from count (λ s. asks_universal s.simple) result }
{
    let mut word = 0;
    for j in 0..count {
        let told = is_universal(&step_at(steps, from + j).simple);
        word = with_told(word, j, told);
    }
    word
}

/// How some steps are joined.
fn joints_of(steps: &[Step], from: usize, count: usize) -> JointMasks
    requires within { from + count ≤ length steps.now }
    requires few { count ≤ 64 }
    ensures { AreJoints steps.now from count result }
{
    JointMasks {
        same: joined_by(steps, from, count, Joint::Same),
        child: joined_by(steps, from, count, Joint::Child),
        adjacent: joined_by(steps, from, count, Joint::Adjacent),
        descendant: joined_by(steps, from, count, Joint::Descendant),
    }
}

/// How many steps a window has that begins at a place.
fn window_size(steps: &[Step], from: usize) -> usize
    requires { from < length steps.now }
    ensures some { 0 < result }
    ensures few { result ≤ 64 }
    ensures within { from + result ≤ length steps.now }
{
    let rest = steps.len() - from;
    if rest < BITS { rest } else { BITS }
}

/// The window of a selector that begins at a place. It has 64 steps, or as many as there are.
pub(crate) fn window_at<'a>(
    alloc: Global,
    steps: &'a [Step],
    from: usize,
) -> Result<Window<'a>, NoMemory>
    requires { from < length steps.now }
    ensures { IfOk result (IsWindow steps.now from) }
{
    let count = window_size(steps, from);
    let tags = names_of(alloc, steps, from, count, Place::Tag)?;
    let labels = names_of(alloc, steps, from, count, Place::Label)?;
    let classes = names_of(alloc, steps, from, count, Place::Classes)?;
    Ok(Window {
        steps,
        from,
        count,
        joints: joints_of(steps, from, count),
        universal: universal_of(steps, from, count),
        tags,
        labels,
        classes,
    })
}

impl<'a> Window<'a> {
    /// How the first step is joined to the one before the window.
    pub(crate) fn first_joint(&self) -> Joint
        requires { self.now.from < length self.now.steps.now }
        ensures { (step : StepValue) → slice_get self.now.steps.now self.now.from ≡ Some step → result ≡ step.joint }
    {
        step_at(self.steps, self.from).joint
    }

    /// The step at a place of the window.
    pub(crate) fn step(&self, j: usize) -> &Step
        requires { self.now.from + j < length self.now.steps.now }
        ensures { slice_get self.now.steps.now (self.now.from + j) ≡ Some result.now }
    {
        step_at(self.steps, self.from + j)
    }
}
