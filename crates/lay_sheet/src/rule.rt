//! A rule set.

ghost use Rattle.std.specs.Prelude.{◌≡◌, ◌≤◌, IfOk, length};
ghost use Rattle.lay_sheet.specs.Pieces.{block_to, behind_block};
ghost use Rattle.lay_sheet.specs.Sheets.{IsRuleSet};

use crate::declaration::{SheetDecl, declarations_of};
use crate::pieces::behind_block;
use crate::selector::Selector;
use crate::selector_text::selectors_of;
use lay_units::NoMemory;
use std::alloc::Global;
use std::marker::Model;

/// A rule set: selectors, and the declarations for what they match.
#[derive(Drop)]
pub struct Rule {
    selectors: Vec<Selector>,
    decls: Vec<SheetDecl>,
}

impl Model for Rule {
    ghost use Rattle.lay_sheet.specs.Sheets.{RuleValue};

    ghost Value = { RuleValue };

    ghost view = { λ r. record { selectors = r.selectors.items; decls = r.decls.items } };
}

impl Rule {
    /// Its selectors, in their order.
    pub fn selectors(&self) -> &[Selector]
        ensures { result.now ≡ self.now.selectors }
    {
        self.selectors.as_slice()
    }

    /// Its declarations, in their order.
    pub fn decls(&self) -> &[SheetDecl]
        ensures { result.now ≡ self.now.decls }
    {
        self.decls.as_slice()
    }
}

/// The rule set that a prelude and the block that a text begins in are, None where it is ignored; and what stands behind the block.
pub(crate) fn rule_of<'a>(
    alloc: Global,
    prelude: &[u8],
    text: &'a [u8],
) -> Result<(Option<Rule>, &'a [u8]), NoMemory>
    ensures rule { IfOk result (λ r. IsRuleSet prelude.now (block_to 0 text.now) r.0) }
    ensures rest { IfOk result (λ r. r.1.now ≡ behind_block 0 text.now) }
    ensures shorter { IfOk result (λ r. length r.1.now ≤ length text.now) }
{
    let Some(selectors) = selectors_of(alloc, prelude)? else {
        return Ok((None, behind_block(text)));
    };
    let (decls, rest) = declarations_of(alloc, text)?;
    Ok((Some(Rule { selectors, decls }), rest))
}
