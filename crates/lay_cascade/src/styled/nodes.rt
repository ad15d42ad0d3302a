//! What a node takes of a sheet.

ghost use Rattle.std.specs.Prelude.{ℕ, Bool, ◌≡◌, ◌<◌, ◌++◌, ◌∷◌, [], false, Some, List, IfOk, OnOk, length, slice_index_or};
ghost use Rattle.lay_doc.specs.Document.{is_text_at};
ghost use Rattle.std.specs.List.{slice_get, Contains};
ghost use Rattle.lay_sheet.specs.declared.selector.Step.{Step as StepValue};
ghost use Rattle.lay_cascade.specs.Matching.{IsMatched, Says};
ghost use Rattle.lay_cascade.specs.Rising.{IsNamed};
ghost use Rattle.lay_cascade.specs.Specificity.{specificity_of};
ghost use Rattle.lay_cascade.specs.declared.styled.entry.Entry.{Entry as EntryValue};
ghost use Rattle.lay_cascade.specs.Styled.Index.{of_lists, of_classes, AreListsOf, IsIndexed};
ghost use Rattle.lay_cascade.specs.Styled.Told.{AreColumns};
ghost use Rattle.lay_cascade.specs.Styled.Cascade.{AreWinners};
ghost use Rattle.lay_cascade.specs.Styled.Seen.{AreWinnersOf};

use crate::node_names::Names;
use crate::styled::candidates::{Candidate, no_winners, take_all};
use crate::styled::columns::{ColumnList, told};
use crate::styled::entry::Entry;
use crate::styled::selector_index::{SelectorIndex, list_of, rule_at, steps_at};
use crate::{Named, Specificity, is_matched, specificity_of};
use lay_sheet::{Rule, Step};
use lay_units::{NoMemory, Text};
use std::alloc::Global;

/// A document's nodes with their names, and a sheet with its selectors by names and with what is told of the long ones.
#[derive(Clone, Copy)]
pub(crate) struct Cascade<'a> {
    pub named: Named<'a>,
    pub rules: &'a [Rule],
    pub index: &'a SelectorIndex,
    pub columns: &'a [ColumnList],
}

/// The specificity of a rule set's selector at a place.
fn specificity_at(rule: &Rule, s: usize) -> Specificity
    requires { s < length rule.now.selectors }
    ensures { (selector : List StepValue) → slice_get rule.now.selectors s ≡ Some selector → result ≡ specificity_of selector }
{
    specificity_of(&rule.selectors()[s])
}

/// Whether a selector, by its steps, matches the node at a place, of which something may be told.
fn matches_at(
    alloc: Global,
    named: Named<'_>,
    k: usize,
    steps: &[Step],
    told: Option<bool>,
) -> Result<bool, NoMemory>
    requires named { IsNamed named.nodes.now named.names.now named.adjacent.now named.sets.now }
    requires place { k < length named.nodes.now }
    requires told { (b : Bool) → told ≡ Some b → Says b (IsMatched named.nodes.now named.names.now steps.now k) }
    ensures { IfOk result (λ b. Says b (IsMatched named.entry.nodes.now named.entry.names.now steps.now k)) }
{
    match told {
        Some(is_matched) => Ok(is_matched),
        None => is_matched(alloc, named, k, steps),
    }
}

/// Takes the declarations of a selector's rule set, where the selector matches the node at a place.
fn take_entry(
    alloc: Global,
    cascade: Cascade<'_>,
    k: usize,
    entry: Entry,
    winners: &mut Vec<Option<Candidate>>,
) -> Result<(), NoMemory>
    requires named { IsNamed cascade.named.nodes.now cascade.named.names.now cascade.named.adjacent.now cascade.named.sets.now }
    requires told { AreColumns cascade.rules.now cascade.named.nodes.now cascade.named.names.now cascade.columns.now }
    requires place { k < length cascade.named.nodes.now }
    requires no_text { is_text_at cascade.named.nodes.now k ≡ false }
    requires count { length winners.old.items ≡ 46 }
    ensures winners { OnOk result
        ((seen : List EntryValue)
        → AreWinnersOf cascade.entry.rules.now cascade.entry.named.nodes.now cascade.entry.named.names.now k seen winners.old.items
        → AreWinnersOf cascade.entry.rules.now cascade.entry.named.nodes.now cascade.entry.named.names.now k
        (seen ++ entry ∷ []) winners.new.items) }
    ensures count { OnOk result (length winners.new.items ≡ 46) }
{
    if entry.rule >= cascade.rules.len() {
        return Ok(());
    }
    let rule = rule_at(cascade.rules, entry.rule);
    if entry.selector >= rule.selectors().len() {
        return Ok(());
    }
    let steps = steps_at(rule, entry.selector);
    let told = told(cascade.columns, entry, k);
    if matches_at(alloc, cascade.named, k, steps, told)? {
        take_all(
            winners,
            specificity_at(rule, entry.selector),
            entry.rule,
            rule.decls(),
        );
    }
    Ok(())
}

fn entry_at(entries: &[Entry], i: usize) -> Entry
    requires { i < length entries.now }
    ensures { result ≡ slice_index_or entries.now i result }
{
    entries[i]
}

/// Takes the declarations of selectors one after the other, each where it matches the node at a place.
fn take_entries(
    alloc: Global,
    cascade: Cascade<'_>,
    k: usize,
    entries: &[Entry],
    winners: &mut Vec<Option<Candidate>>,
) -> Result<(), NoMemory>
    requires named { IsNamed cascade.named.nodes.now cascade.named.names.now cascade.named.adjacent.now cascade.named.sets.now }
    requires told { AreColumns cascade.rules.now cascade.named.nodes.now cascade.named.names.now cascade.columns.now }
    requires place { k < length cascade.named.nodes.now }
    requires no_text { is_text_at cascade.named.nodes.now k ≡ false }
    requires count { length winners.old.items ≡ 46 }
    ensures winners { OnOk result
        ((seen : List EntryValue)
        → AreWinnersOf cascade.entry.rules.now cascade.entry.named.nodes.now cascade.entry.named.names.now k seen winners.old.items
        → AreWinnersOf cascade.entry.rules.now cascade.entry.named.nodes.now cascade.entry.named.names.now k
        (seen ++ entries.now) winners.new.items) }
    ensures count { OnOk result (length winners.new.items ≡ 46) }
{
    for i in 0..entries.len() {
        take_entry(alloc, cascade, k, entry_at(entries, i), winners)?;
    }
    Ok(())
}

fn class_at(classes: &[Text], i: usize) -> &[u8]
    requires { i < length classes.now }
    ensures { result.now ≡ slice_index_or classes.now i result.now }
{
    classes[i].as_str().as_bytes()
}

/// The numbers of the lists in which the classes of a node are looked up, each once however many classes it is of.
fn lists_of(alloc: Global, classes: &[Text]) -> Result<Vec<usize>, NoMemory>
    ensures { IfOk result (λ v. AreListsOf classes.now v.items) }
{
    let mut numbers = Vec::new(alloc);
    for i in 0..classes.len() {
        numbers.push(list_of(class_at(classes, i)))?;
    }
    numbers.sort_unstable();
    numbers.dedup();
    Ok(numbers)
}

fn number_at(numbers: &[usize], i: usize) -> usize
    requires { i < length numbers.now }
    ensures { result ≡ slice_index_or numbers.now i result }
{
    numbers[i]
}

/// Takes the declarations of the selectors in the lists of these numbers.
fn take_lists(
    alloc: Global,
    cascade: Cascade<'_>,
    k: usize,
    numbers: &[usize],
    winners: &mut Vec<Option<Candidate>>,
) -> Result<(), NoMemory>
    requires named { IsNamed cascade.named.nodes.now cascade.named.names.now cascade.named.adjacent.now cascade.named.sets.now }
    requires told { AreColumns cascade.rules.now cascade.named.nodes.now cascade.named.names.now cascade.columns.now }
    requires place { k < length cascade.named.nodes.now }
    requires no_text { is_text_at cascade.named.nodes.now k ≡ false }
    requires index { length cascade.index.now.by_name.items ≡ 4096 }
    requires within { (n : ℕ) → Contains numbers.now n → n < 4096 }
    requires count { length winners.old.items ≡ 46 }
    ensures winners { OnOk result
        ((seen : List EntryValue)
        → AreWinnersOf cascade.entry.rules.now cascade.entry.named.nodes.now cascade.entry.named.names.now k seen winners.old.items
        → AreWinnersOf cascade.entry.rules.now cascade.entry.named.nodes.now cascade.entry.named.names.now k
        (seen ++ of_lists cascade.entry.index.now.by_name.items numbers.now) winners.new.items) }
    ensures count { OnOk result (length winners.new.items ≡ 46) }
{
    for i in 0..numbers.len() {
        let entries = cascade.index.list(number_at(numbers, i));
        take_entries(alloc, cascade, k, entries, winners)?;
    }
    Ok(())
}

/// Takes the declarations of the selectors that the classes of a node are looked up for.
fn take_classes(
    alloc: Global,
    cascade: Cascade<'_>,
    k: usize,
    classes: &[Text],
    winners: &mut Vec<Option<Candidate>>,
) -> Result<(), NoMemory>
    requires named { IsNamed cascade.named.nodes.now cascade.named.names.now cascade.named.adjacent.now cascade.named.sets.now }
    requires told { AreColumns cascade.rules.now cascade.named.nodes.now cascade.named.names.now cascade.columns.now }
    requires place { k < length cascade.named.nodes.now }
    requires no_text { is_text_at cascade.named.nodes.now k ≡ false }
    requires index { length cascade.index.now.by_name.items ≡ 4096 }
    requires count { length winners.old.items ≡ 46 }
    ensures winners { OnOk result
        ((seen : List EntryValue)
        → AreWinnersOf cascade.entry.rules.now cascade.entry.named.nodes.now cascade.entry.named.names.now k seen winners.old.items
        → AreWinnersOf cascade.entry.rules.now cascade.entry.named.nodes.now cascade.entry.named.names.now k
        (seen ++ of_classes cascade.entry.index.now.by_name.items cascade.entry.index.now.rest classes.now) winners.new.items) }
    ensures count { OnOk result (length winners.new.items ≡ 46) }
{
    let numbers = lists_of(alloc, classes)?;
    take_lists(alloc, cascade, k, numbers.as_slice(), winners)?;
    Ok(())
}

fn names_at(names: &[Names], k: usize) -> &Names
    requires { k < length names.now }
    ensures { result.now ≡ slice_index_or names.now k result.now }
{
    &names[k]
}

/// The greatest declarations of the sheet for the node at a place, which is no text.
pub(crate) fn winners_at(
    alloc: Global,
    cascade: Cascade<'_>,
    k: usize,
) -> Result<Vec<Option<Candidate>>, NoMemory>
    requires named { IsNamed cascade.named.nodes.now cascade.named.names.now cascade.named.adjacent.now cascade.named.sets.now }
    requires told { AreColumns cascade.rules.now cascade.named.nodes.now cascade.named.names.now cascade.columns.now }
    requires place { k < length cascade.named.nodes.now }
    requires no_text { is_text_at cascade.named.nodes.now k ≡ false }
    requires index { IsIndexed cascade.rules.now cascade.index.now.by_name.items cascade.index.now.rest }
    ensures { IfOk result (λ v. AreWinners cascade.entry.rules.now cascade.entry.named.nodes.now cascade.entry.named.names.now k v.items) }
{
    let mut winners = no_winners(alloc)?;
    let names = names_at(cascade.named.names, k);
    let tagged = cascade.index.named(names.tag.as_str().as_bytes());
    take_entries(alloc, cascade, k, tagged, &mut winners)?;
    let labelled = cascade.index.named(names.label.as_str().as_bytes());
    take_entries(alloc, cascade, k, labelled, &mut winners)?;
    take_classes(alloc, cascade, k, names.classes.as_slice(), &mut winners)?;
    take_entries(alloc, cascade, k, cascade.index.rest(), &mut winners)?;
    Ok(winners)
}
