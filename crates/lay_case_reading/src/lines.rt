//! Lines of cases: `CALL -> ANSWER`, or `CALL` where the answer is `done`.

/// The line of a call.
#[derive(Clone, Copy)]
pub(crate) struct CallLine<'a> {
    pub call: &'a str,
    /// The answer that it says.
    pub wanted: &'a str,
    /// The lines that say what is so where the call lacks memory, with ` | ` between them.
    pub between: &'a str,
    /// Whether it may not lack memory: it is made again, or says what is so where another call lacked memory.
    pub is_again: bool,
}

impl<'a> CallLine<'a> {
    /// The call of a line; None where the line is empty or a remark.
    pub(crate) fn read(line: &'a str) -> Option<CallLine<'a>> {
        let (line, between) = line.split_once(" | ").unwrap_or((line, ""));
        if line.is_empty() || line.starts_with('#') {
            return None;
        }
        let (call, wanted) = line.split_once(" -> ").unwrap_or((line, "done"));
        Some(CallLine {
            call,
            wanted,
            between,
            is_again: false,
        })
    }

    /// The same call, which may not lack memory.
    pub(crate) fn again(self) -> CallLine<'a> {
        CallLine {
            is_again: true,
            ..self
        }
    }
}
