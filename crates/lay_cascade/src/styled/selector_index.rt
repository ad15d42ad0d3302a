//! The selectors of a sheet by names.

ghost use Rattle.std.specs.Prelude.{◌≡◌, ◌+◌, ◌<◌, [], Some, IfOk, OnOk, length, option_map, slice_index_or};
ghost use Rattle.std.specs.List.{slice_get};
ghost use Rattle.lay_cascade.specs.Styled.Index.{name_in, last_name, list_of, by_name_with, rest_with, listed, IsIndexedTo, IsIndexed};

use crate::styled::entry::{Entry, EntryList};
use lay_sheet::{Rule, Simple, Step};
use lay_units::NoMemory;
use std::alloc::Global;

/// How many lists there are.
const LISTS: usize = 4096;

/// The selectors of a sheet. Those whose last simple selector asks for a name stand in one of 4,096 lists, which is the same
/// for equal names; others, as `*`, in a list of their own.
#[derive(Drop)]
pub(crate) struct SelectorIndex {
    by_name: Vec<EntryList>,
    rest: EntryList,
}

impl SelectorIndex {
    /// The selectors whose last name may be this one.
    pub(crate) fn named(&self, name: &[u8]) -> &[Entry]
        requires { length self.now.by_name.items ≡ 4096 }
        ensures { result.now ≡ listed self.now.by_name.items self.now.rest (Some name.now) }
    {
        self.by_name[list_of(name)].as_slice()
    }

    /// The selectors of the list with this number.
    pub(crate) fn list(&self, number: usize) -> &[Entry]
        requires count { length self.now.by_name.items ≡ 4096 }
        requires within { number < 4096 }
        ensures { result.now ≡ slice_index_or self.now.by_name.items number [] }
    {
        self.by_name[number].as_slice()
    }

    /// The selectors whose last simple selector asks for no name.
    pub(crate) fn rest(&self) -> &[Entry]
        ensures { result.now ≡ self.now.rest }
    {
        self.rest.as_slice()
    }
}

/// The number of the list of a name, below 4,096.
pub(crate) fn list_of(name: &[u8]) -> usize
    ensures value { result ≡ list_of name.now }
    ensures within { result < 4096 }
{
    let mut sum: usize = 0;
    for byte in name {
        sum = (sum * 31 + *byte as usize) % LISTS;
    }
    sum
}

/// The name that a simple selector asks for.
fn name_in(simple: &Simple) -> Option<&[u8]>
    ensures { option_map (λ n. n.now) result ≡ name_in simple.now }
{
    match simple {
        Simple::Universal => None,
        Simple::Tag(name) => Some(name.as_bytes()),
        Simple::Class(name) => Some(name.as_bytes()),
        Simple::Label(name) => Some(name.as_bytes()),
    }
}

/// The name that the last simple selector of a selector asks for.
fn last_name(steps: &[Step]) -> Option<&[u8]>
    ensures { option_map (λ n. n.now) result ≡ last_name steps.now }
{
    let last = steps.len().checked_sub(1)?;
    name_in(&steps[last].simple)
}

/// Adds a selector.
fn add(index: &mut SelectorIndex, entry: Entry, steps: &[Step]) -> Result<(), NoMemory>
    requires { length index.old.by_name.items ≡ 4096 }
    ensures by_name { OnOk result (index.new.by_name.items ≡ by_name_with (last_name steps.now) entry index.old.by_name.items) }
    ensures rest { OnOk result (index.new.rest ≡ rest_with (last_name steps.now) entry index.old.rest) }
{
    match last_name(steps) {
        Some(name) => index.by_name[list_of(name)].push(entry),
        None => index.rest.push(entry),
    }
}

/// The rule set at a place.
pub(crate) fn rule_at(rules: &[Rule], r: usize) -> &Rule
    requires { r < length rules.now }
    ensures { slice_get rules.now r ≡ Some result.now }
{
    &rules[r]
}

/// The steps of a rule set's selector at a place.
pub(crate) fn steps_at(rule: &Rule, s: usize) -> &[Step]
    requires { s < length rule.now.selectors }
    ensures { slice_get rule.now.selectors s ≡ Some result.now }
{
    rule.selectors()[s].as_slice()
}

/// Adds the selectors of the rule set at a place.
fn add_rule(index: &mut SelectorIndex, rules: &[Rule], r: usize) -> Result<(), NoMemory>
    requires place { r < length rules.now }
    requires so_far { IsIndexedTo rules.now index.old.by_name.items index.old.rest r 0 }
    ensures { OnOk result (IsIndexedTo rules.now index.new.by_name.items index.new.rest (r + 1) 0) }
{
    let rule = rule_at(rules, r);
    for s in 0..rule.selectors().len() {
        let entry = Entry {
            rule: r,
            selector: s,
        };
        add(index, entry, steps_at(rule, s))?;
    }
    Ok(())
}

/// The index of no selector.
fn no_selectors(alloc: Global) -> Result<SelectorIndex, NoMemory>
    ensures { IfOk result (λ index. length index.by_name.items ≡ 4096) }
{
    let mut by_name = Vec::new(alloc);
    for _k in 0..LISTS {
        by_name.push(EntryList::new(alloc))?;
    }
    Ok(SelectorIndex {
        by_name,
        rest: EntryList::new(alloc),
    })
}

/// The index of the selectors of a sheet's rule sets.
pub(crate) fn index_of(alloc: Global, rules: &[Rule]) -> Result<SelectorIndex, NoMemory>
    ensures { IfOk result (λ index. IsIndexed rules.now index.by_name.items index.rest) }
{
    let mut index = no_selectors(alloc)?;
    for r in 0..rules.len() {
        add_rule(&mut index, rules, r)?;
    }
    Ok(index)
}
