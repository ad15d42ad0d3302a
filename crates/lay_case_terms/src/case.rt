//! Cases of a file that has several:
//!
//! ```text
//! case the third write fails
//! with write-step 10, write-fails 3, front 20
//! {"viewport":[800,600],"nodes":[
//! {"id":1,"parent":0,"kind":"element","style":{"display":"block"}}]}
//! answer WriteFault
//! publish 0
//! final 0
//! box 1 0 0 0 51200 0
//! ```
//!
//! Between two cases stands an empty line. The line `with ..` has the terms that aren't plain (`terms.rt`), and is left
//! out where all are. A document may have lines that stand for copies (`copies.rt`). Under `answer Read` stands what the
//! document is read as (`document_reading.rt`). With the term `show-kept 1` the answer tells the core that is kept, behind the status:
//! `Ok, kept 5 entries, laid 3`. With the term `sweep writes` and the like it makes calls in a row (`sweep.rt` of lay_cases).
//!
//! With the terms `hold POINT, until POINT` a thread of a run is held at the one point until the other one was reached,
//! and the answer tells whether that was so: `Ok, met`. Such an answer is wanted without its line `laid`, since how much is laid out
//! depends on who comes first. Without these terms the editors of a run take turns (`turn_gate.rt` of lay_cases).

use crate::answer::Wanted;
use crate::terms::Terms;

/// A call, and the answer that is wanted.
#[derive(Clone, Copy)]
pub struct Case<'a> {
    name: &'a str,
    terms: Terms<'a>,
    document: &'a str,
    wanted: Wanted<'a>,
}

impl<'a> Case<'a> {
    /// The case that a text is, which begins behind the word `case`; None where it is none.
    pub fn read(text: &'a str) -> Option<Case<'a>> {
        let (call, answer) = text.split_once("\nanswer ")?;
        let (name, behind) = call.split_once('\n').unwrap_or((call, ""));
        let (terms, document) = match behind.strip_prefix("with ") {
            Some(rest) => rest.split_once('\n').unwrap_or((rest, "")),
            None => ("", behind),
        };
        let terms = Terms::read(terms)?;
        let (status, text) = answer.split_once('\n')?;
        let text = match terms.front() {
            Some(front) => text.get(..front)?,
            None => text,
        };
        Some(Case {
            name,
            terms,
            document,
            wanted: Wanted { status, text },
        })
    }

    pub fn name(&self) -> &'a str {
        self.name
    }

    pub fn terms(&self) -> &Terms<'a> {
        &self.terms
    }

    /// The run document, where the terms name none.
    pub fn document(&self) -> &'a str {
        self.document
    }

    pub fn wanted(&self) -> Wanted<'a> {
        self.wanted
    }
}
