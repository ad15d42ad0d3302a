//! The end of a report: the last version and its tree, and the number of claims.

ghost use Rattle.std.specs.Prelude.{◌≡◌, ◌+◌, ◌<◌, ◌^◌, ◌++◌, [], IfOk, IfSome, IsSomeAnd, List, None, Some, codes, length, ℕ};
ghost use Rattle.std.specs.Fmt.{decimal};
ghost use Rattle.lay_doc.specs.Document.{Document};
ghost use Rattle.lay_report.specs.Report.{laid_line};
ghost use Rattle.lay_audit.specs.LegalReports.{Basis};
ghost use Rattle.lay_audit.specs.Readings.{IsAtEnd, IsFinalNext, IsLaidNext, IsRead, IsSteady, NoStep, basis_of};
ghost use Rattle.lay_audit.specs.Verdicts.{IsVerdict};

use crate::comparing::{compare, split_line};
use crate::lines::{behind, number_line};
use crate::reading::{Reading, can_complete};
use crate::verdict::Verdict;
use lay_context::one_solution;
use lay_face::Face;
use lay_history::edits::CmdList;
use lay_units::NoMemory;
use std::alloc::Global;
use std::str;
use std::sync::Arc;

impl<'a> Reading<'a> {
    /// Reads the end, where no entry's line stands next.
    pub(crate) fn read_end(
        &mut self,
        alloc: Global,
        scripts: &[CmdList],
        face: &Arc<Face>,
    ) -> Result<Verdict, NoMemory>
        requires { IsSteady scripts.now self.old }
        ensures { IfOk result (λ v. (init : Document) (text : List ℕ) → IsRead (basis_of init face.now.value scripts.now) text self.old []
            → NoStep scripts.now self.old → IsVerdict (basis_of init face.now.value scripts.now) text v) }
    {
        one_solution();
        match self.behind_final(alloc, scripts)? {
            Some(rest) => {
                self.rest = rest;
                self.lines += 1;
                self.read_last_tree(alloc)
            }
            None => {
                can_complete(alloc, &self.present, face)?;
                Ok(Verdict::No(self.lines + 1))
            }
        }
    }

    /// What stands behind the final line, where it stands next and may.
    fn behind_final(&self, alloc: Global, scripts: &[CmdList]) -> Result<Option<&'a [u8]>, NoMemory>
        requires { IsSteady scripts.now self.now }
        ensures some { IfOk result (λ o. IfSome o (λ rest. IsFinalNext scripts.now self.now rest.now)) }
        ensures none { IfOk result (λ o. o ≡ None → (rest : List ℕ) → IsFinalNext scripts.now self.now rest → ⊥) }
    {
        if !self.present.is_published() || !self.present.all_answered(scripts) {
            return Ok(None);
        }
        let line = number_line(alloc, "final ", self.present.count())?;
        Ok(behind(self.rest, line.as_bytes()))
    }

    /// Reads the lines of the last tree.
    fn read_last_tree(&mut self, alloc: Global) -> Result<Verdict, NoMemory>
        requires { self.old.lines + length self.old.rest + 1 < 2 ^ 64 }
        ensures { IfOk result
            (λ v. (basis : Basis) (text : List ℕ)
            → IsAtEnd basis text self.old.lines self.old.rest self.old.tree.contexts self.old.tree.text → IsVerdict basis text v) }
    {
        match compare(self.tree.text(), self.rest) {
            Ok((lines, rest)) => {
                self.lines += lines;
                self.rest = rest;
                self.read_laid(alloc)
            }
            Err(lines) => Ok(Verdict::No(self.lines + lines + 1)),
        }
    }

    /// Reads the number of claims, and the end.
    fn read_laid(&self, alloc: Global) -> Result<Verdict, NoMemory>
        requires { self.now.lines + length self.now.rest + 1 < 2 ^ 64 }
        ensures { IfOk result
            (λ v. (basis : Basis) (text : List ℕ) → IsAtEnd basis text self.now.lines self.now.rest self.now.tree.contexts []
            → IsVerdict basis text v) }
    {
        match behind_laid(alloc, self.tree.contexts(), self.rest)? {
            None => Ok(Verdict::No(self.lines + 1)),
            Some(rest) => {
                if rest.is_empty() {
                    Ok(Verdict::Yes)
                } else {
                    Ok(Verdict::No(self.lines + 2))
                }
            }
        }
    }
}

/// What stands behind the number of claims, where one stands next that is great enough.
fn behind_laid(alloc: Global, contexts: usize, text: &[u8]) -> Result<Option<&[u8]>, NoMemory>
    ensures some { IfOk result (λ o. IfSome o (λ rest. IsLaidNext contexts text.now rest.now)) }
    ensures none { IfOk result (λ o. o ≡ None → (rest : List ℕ) → IsLaidNext contexts text.now rest → ⊥) }
{
    let (line, rest) = split_line(text);
    let Some(laid) = laid_number(line) else {
        return Ok(None);
    };
    let written = number_line(alloc, "laid ", laid)?;
    if contexts as u64 <= laid / 3 && written.as_bytes() == line {
        Ok(Some(rest))
    } else {
        Ok(None)
    }
}

/// A number for a line that may be that of a number of claims: of one that is, its number.
fn laid_number(line: &[u8]) -> Option<u64>
    ensures { (n : ℕ) → n < 2 ^ 64 → line.now ≡ laid_line n → result ≡ Some n }
{
    match laid_digits(line) {
        Some(digits) => number(digits),
        None => None,
    }
}

/// What stands between the word of such a line and its linefeed.
fn laid_digits(line: &[u8]) -> Option<&[u8]>
    ensures { (digits : List ℕ) → line.now ≡ codes "laid " ++ digits ++ codes "\n" → IsSomeAnd result (λ d. d.now ≡ digits) }
{
    match behind(line, b"laid ") {
        Some(rest) => rest.strip_suffix(b"\n"),
        None => None,
    }
}

/// The number that is written so.
fn number(digits: &[u8]) -> Option<u64>
    ensures { (n : ℕ) → n < 2 ^ 64 → digits.now ≡ decimal n → result ≡ Some n }
{
    match str::from_utf8(digits) {
        Ok(text) => match text.parse::<u64>() {
            Ok(n) => Some(n),
            Err(_) => None,
        },
        Err(_) => None,
    }
}
