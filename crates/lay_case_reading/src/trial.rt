//! The calls of a case, each with the answer that its line says.
//!
//! A call that lacks memory is made again, and has then the answer that its line says. What its line says after ` | `, as in
//! `sync -> shown 1 | contexts 1 -> none`, is what stands between the two.

use crate::comparison::Comparison;
use crate::lines::CallLine;
use std::alloc::{AllocError, Global};

/// The calls of a case that are left, and what came of the others.
#[derive(Drop)]
pub struct Trial<'a> {
    /// The lines of the calls that are left, the next one last.
    left: Vec<CallLine<'a>>,
    comparison: Comparison,
}

impl<'a> Trial<'a> {
    /// A trial of the calls of these lines.
    pub fn new(alloc: Global, lines: &'a str) -> Result<Trial<'a>, AllocError> {
        let mut left = Vec::new(alloc);
        for line in lines.lines() {
            if let Some(line) = CallLine::read(line) {
                left.push(line)?;
            }
        }
        left.reverse();
        Ok(Trial {
            left,
            comparison: Comparison::new(alloc),
        })
    }

    /// The call that is to be made next; None where there is none.
    pub fn next_call(&self) -> Option<&'a str> {
        let line = self.left.last()?;
        Some(line.call)
    }

    /// Takes the answer to that call. Where it is another than the wanted one the trial ends.
    pub fn take(&mut self, alloc: Global, answer: &str) -> Result<(), AllocError> {
        match self.left.pop() {
            Some(line) if answer == line.wanted => Ok(()),
            Some(line) if answer == "no memory" && !line.is_again => self.make_again(line),
            Some(line) => self.end(alloc, &line, answer),
            None => Ok(()),
        }
    }

    /// What came of the calls that were made.
    pub fn comparison(self) -> Comparison {
        let Trial { comparison, .. } = self;
        comparison
    }

    /// Notes that a call lacked memory, and has it made again after a look at what its line says of that.
    fn make_again(&mut self, line: CallLine<'a>) -> Result<(), AllocError> {
        self.comparison.push_lacking(line.call)?;
        self.left.push(line.again())?;
        for state in line.between.rsplit(" | ") {
            if let Some(state) = CallLine::read(state) {
                self.left.push(state.again())?;
            }
        }
        Ok(())
    }

    /// Notes the answer of a call that should have another, and leaves none to be made.
    fn end(&mut self, alloc: Global, line: &CallLine<'_>, answer: &str) -> Result<(), AllocError> {
        self.left.clear();
        self.comparison.other = Some(format!(in alloc; "{} -> {answer}", line.call)?);
        Ok(())
    }
}
