//! The greatest of the declarations that a sheet has for a node.

ghost use Rattle.std.specs.Prelude.{◌≡◌, ◌<◌, None, IfOk, length, replicate};
ghost use Rattle.lay_style.specs.PropertyNumbers.{number_of};
ghost use Rattle.lay_cascade.specs.Styled.Winners.{better, with_candidate, sheet_candidate, with_decls};

use crate::Specificity;
use crate::styled::weight::Weight;
use lay_sheet::SheetDecl;
use lay_style::Decl;
use lay_units::NoMemory;
use std::alloc::Global;

/// How many properties there are.
const PROPERTIES: usize = 46;

/// A declaration that a node may have by a sheet.
#[derive(Clone, Copy)]
pub struct Candidate {
    pub weight: Weight,
    pub decl: Decl,
}

/// No declaration yet, for each property by its number.
pub(crate) fn no_winners(alloc: Global) -> Result<Vec<Option<Candidate>>, NoMemory>
    ensures { IfOk result (λ v. v.items ≡ replicate 46 None) }
{
    let mut winners = Vec::new(alloc);
    for _k in 0..PROPERTIES {
        winners.push(None)?;
    }
    Ok(winners)
}

/// The greater one of two declarations for one property.
fn better(best: Option<Candidate>, next: Candidate) -> Option<Candidate>
    ensures { result ≡ better best next }
{
    match best {
        Some(best) if !best.weight.is_less(next.weight) => Some(best),
        _ => Some(next),
    }
}

/// Takes a declaration as that of its property, where none is greater.
fn take(winners: &mut Vec<Option<Candidate>>, next: Candidate)
    requires { length winners.old.items ≡ 46 }
    ensures { winners.new.items ≡ with_candidate winners.old.items next }
{
    let number = number_within(next.decl);
    winners[number] = better(winners[number], next);
}

/// The number of a declaration's property.
#[tactic(auto, using(crate::proofs::StyledLemmas::Numbers::number_below))]
fn number_within(decl: Decl) -> usize
    ensures value { result ≡ number_of decl.property }
    ensures within { result < 46 }
{
    decl.property().number() as usize
}

/// A declaration of a rule set, with what decides.
fn candidate_of(specificity: Specificity, rule: usize, place: usize, decl: SheetDecl) -> Candidate
    ensures { result ≡ sheet_candidate specificity rule place decl }
{
    Candidate {
        weight: Weight {
            important: decl.important,
            specificity,
            rule,
            place,
        },
        decl: decl.decl,
    }
}

/// Takes the declarations of a rule set of which a selector of this specificity matches.
pub(crate) fn take_all(
    winners: &mut Vec<Option<Candidate>>,
    specificity: Specificity,
    rule: usize,
    decls: &[SheetDecl],
)
    requires { length winners.old.items ≡ 46 }
    ensures { winners.new.items ≡ with_decls specificity rule 0 decls.now winners.old.items }
{
    for place in 0..decls.len() {
        take(
            winners,
            candidate_of(specificity, rule, place, decls[place]),
        );
    }
}
