//! The terms of a case: a line for each, `words W W ..`, `most N` for the most bytes of a read or a write, `failing-read N` and
//! `failing-write N` for the number, from 1, of the call that fails, and `room N` for the bytes that the sink takes. With a line
//! `streams plain` no read fails, and writes only where the sink is full; these take as many bytes as there are.

/// The words of a call, and how its streams behave.
#[derive(Clone, Copy)]
pub struct Terms<'a> {
    pub words: &'a str,
    pub most: usize,
    pub failing_read: u64,
    pub failing_write: u64,
    pub room: usize,
    pub are_plain: bool,
}

impl<'a> Terms<'a> {
    /// What the lines say; None where one can't be read.
    pub(crate) fn read(text: &'a str) -> Option<Terms<'a>> {
        let mut terms = Terms {
            words: "",
            most: 4096,
            failing_read: 0,
            failing_write: 0,
            room: 1 << 20,
            are_plain: false,
        };
        for line in text.lines() {
            let (name, value) = line.split_once(' ')?;
            if name == "words" {
                terms.words = value;
            } else if line == "streams plain" {
                terms.are_plain = true;
            } else {
                let number = value.parse::<u64>().ok()?;
                terms = terms.with(name, number)?;
            }
        }
        Some(terms)
    }

    fn with(self, name: &str, number: u64) -> Option<Terms<'a>> {
        let mut terms = self;
        if name == "most" {
            terms.most = number as usize;
        } else if name == "failing-read" {
            terms.failing_read = number;
        } else if name == "failing-write" {
            terms.failing_write = number;
        } else if name == "room" {
            terms.room = number as usize;
        } else {
            return None;
        }
        Some(terms)
    }
}
