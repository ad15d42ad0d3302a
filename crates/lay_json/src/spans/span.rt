//! Where the values of a list end.

ghost use Rattle.std.specs.Prelude.{◌≡◌, ◌≤◌, length, take, drop, true, IfSome};
ghost use Rattle.json.specs.Lex.{between};
ghost use Rattle.lay_json.specs.Spans.Modes.{behind, is_closed};
ghost use Rattle.lay_json.specs.Spans.Readings.{EndsValue};

use crate::spans::class::{Mode, behind, is_closed};

/// How long the text of some values may be where another one is begun.
const MANY_BYTES: usize = 16384;

/// The length of the text of the values that a text begins with, at most so many, where what follows ends the last one.
pub(crate) fn span_of(text: &[u8], most: usize) -> Option<usize>
    ensures within { IfSome result (λ n. n ≤ length text.now) }
    ensures closed { IfSome result (λ n. is_closed (behind between (take n text.now)) ≡ true) }
    ensures ends { IfSome result (λ n. EndsValue (drop n text.now)) }
{
    let mut mode = Mode::Between;
    let mut depth = 0usize;
    let mut count = 1usize;
    let mut at = 0usize;
    for byte in text {
        if is_closed(mode) {
            match *byte {
                b'{' | b'[' => depth += 1,
                b'}' | b']' => {
                    if depth == 0 {
                        return Some(at);
                    }
                    depth -= 1;
                }
                b',' => {
                    if depth == 0 {
                        if count >= most || at >= MANY_BYTES {
                            return Some(at);
                        }
                        count += 1;
                    }
                }
                _ => {}
            }
        }
        mode = behind(mode, *byte);
        at += 1;
    }
    None
}
