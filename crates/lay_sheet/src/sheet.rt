//! A sheet.

ghost use Rattle.std.specs.Prelude.{◌≡◌, ◌==◌, ◌<◌, ◌-◌, ◌^◌, [], ◌++◌, false, min, IfOk, OnOk, List, length, slice_index};
ghost use Rattle.std.specs.Char.{is_ascii_whitespace};
ghost use Rattle.lay_sheet.specs.Lists.{with_found};
ghost use Rattle.lay_sheet.specs.Sheets.{RuleValue, AreStatements, IsSheet, selector_count};

use crate::pieces::{behind_at_rule, behind_first, split_before};
use crate::plain::plain_text;
use crate::rule::{Rule, rule_of};
use lay_units::NoMemory;
use std::alloc::Global;
use std::marker::Model;

/// A style sheet: its rule sets, in the order of its text.
#[derive(Drop)]
pub struct Sheet {
    rules: Vec<Rule>,
}

impl Model for Sheet {
    ghost use Rattle.std.specs.Prelude.{List};
    ghost use Rattle.lay_sheet.specs.Sheets.{RuleValue};

    ghost Value = { List RuleValue };

    ghost view = { λ s. s.rules.items };
}

impl Sheet {
    /// Its rule sets, in the order of its text.
    pub fn rules(&self) -> &[Rule]
        ensures { result.now ≡ self.now }
    {
        self.rules.as_slice()
    }
}

/// What the first byte of a text begins: its rule set, if it is one that is kept, and what stands behind.
fn statement(alloc: Global, text: &[u8]) -> Result<(Option<Rule>, &[u8]), NoMemory>
    requires { 0 < length text.now }
    ensures grammar { IfOk result (λ r. (rules : List RuleValue) → AreStatements r.1.now rules
        → AreStatements text.now (with_found r.0 rules)) }
    ensures shorter { IfOk result (λ r. length r.1.now < length text.now) }
{
    if text[0].is_ascii_whitespace() {
        return Ok((None, behind_first(text)));
    }
    if text[0] == b'@' {
        return Ok((None, behind_at_rule(behind_first(text))));
    }
    rule_set(alloc, text)
}

/// What a byte that begins no other statement begins: the rule set, if it is kept, and what stands behind.
fn rule_set(alloc: Global, text: &[u8]) -> Result<(Option<Rule>, &[u8]), NoMemory>
    requires some { 0 < length text.now }
    requires no_space { is_ascii_whitespace (slice_index text.now 0) ≡ false }
    requires no_at_rule { (slice_index text.now 0 == 64) ≡ false }
    ensures grammar { IfOk result (λ r. (rules : List RuleValue) → AreStatements r.1.now rules
        → AreStatements text.now (with_found r.0 rules)) }
    ensures shorter { IfOk result (λ r. length r.1.now < length text.now) }
{
    let (prelude, rest) = split_before(b'{', text);
    if rest.is_empty() {
        return Ok((None, rest));
    }
    let (rule, behind) = rule_of(alloc, prelude, behind_first(rest))?;
    Ok((rule, behind))
}

fn push_found(rules: &mut Vec<Rule>, found: Option<Rule>) -> Result<(), NoMemory>
    ensures { OnOk result (rules.new.items ≡ rules.old.items ++ with_found found []) }
{
    if let Some(rule) = found {
        rules.push(rule)?;
    }
    Ok(())
}

/// The rule sets of the statements that a text is.
fn statements(alloc: Global, text: &[u8]) -> Result<Vec<Rule>, NoMemory>
    ensures { IfOk result (λ v. AreStatements text.now v.items) }
{
    let mut rules = Vec::new(alloc);
    let mut rest = text;
    while !rest.is_empty() {
        let (rule, behind) = statement(alloc, rest)?;
        push_found(&mut rules, rule)?;
        rest = behind;
    }
    Ok(rules)
}

/// The sheet that a text is. Each text is one: what isn't a rule set with selectors is ignored.
pub fn read_sheet(alloc: Global, text: &str) -> Result<Sheet, NoMemory>
    ensures { IfOk result (λ s. IsSheet text.now s) }
{
    let plain = plain_text(alloc, text.as_bytes())?;
    let rules = statements(alloc, plain.as_slice())?;
    Ok(Sheet { rules })
}

/// How many selectors these rule sets have together; 2^64 - 1 if they are more.
fn count_of(rules: &[Rule]) -> u64
    ensures { result ≡ min (selector_count rules.now) (2 ^ 64 - 1) }
{
    let mut count: u64 = 0;
    for rule in rules {
        count = count.saturating_add(rule.selectors().len() as u64);
    }
    count
}

/// How many selectors the rule sets of a sheet have together; 2^64 - 1 if they are more.
pub fn selectors(sheet: &Sheet) -> u64
    ensures { result ≡ min (selector_count sheet.now) (2 ^ 64 - 1) }
{
    count_of(sheet.rules())
}
