//! Where the pieces of a sheet end.

ghost use Rattle.std.specs.Prelude.{◌≡◌, ◌<◌, ◌≤◌, [], true, false, length, drop};
ghost use Rattle.lay_values.specs.Numbers.{leading, behind};
ghost use Rattle.lay_sheet.specs.Pieces.{is_other, block_to, behind_block, behind_at_rule, part_to, behind_part};

use memchr::memchr3;

/// What stands behind the first byte of a text.
pub(crate) fn behind_first(text: &[u8]) -> &[u8]
    requires { 0 < length text.now }
    ensures { result.now ≡ drop 1 text.now }
{
    &text[1..]
}

/// What stands before the first byte of this value, and from there on.
pub(crate) fn split_before(byte: u8, text: &[u8]) -> (&[u8], &[u8])
    ensures before { result.0.now ≡ leading (is_other byte) text.now }
    ensures rest { result.1.now ≡ behind (is_other byte) text.now }
    ensures shorter { length result.1.now ≤ length text.now }
{
    for (i, b) in text.iter().enumerate() {
        if *b == byte {
            return text.split_at(i);
        }
    }
    text.split_at(text.len())
}

/// What stands behind the block that a text begins in.
pub(crate) fn behind_block(text: &[u8]) -> &[u8]
    ensures rest { result.now ≡ behind_block 0 text.now }
    ensures shorter { length result.now ≤ length text.now }
{
    let mut depth: usize = 0;
    for (i, b) in text.iter().enumerate() {
        match *b {
            b'{' => depth += 1,
            b'}' if depth == 0 => return &text[i + 1..],
            b'}' => depth -= 1,
            _ => {}
        }
    }
    &[]
}

/// What stands behind a statement that begins with `@`.
pub(crate) fn behind_at_rule(text: &[u8]) -> &[u8]
    ensures rest { result.now ≡ behind_at_rule text.now }
    ensures shorter { length result.now ≤ length text.now }
{
    for (i, b) in text.iter().enumerate() {
        match *b {
            b';' => return &text[i + 1..],
            b'{' => return behind_block(&text[i + 1..]),
            _ => {}
        }
    }
    &[]
}

/// A part of a block.
#[derive(Clone, Copy)]
pub(crate) struct Part<'a> {
    pub(crate) text: &'a [u8],
    /// What stands behind it: the rest of the block and all behind that, or what stands behind the block.
    pub(crate) rest: &'a [u8],
    /// Whether the block ends with this part.
    pub(crate) is_last: bool,
}

/// The first part of the block that a text begins in, up to the first `;` outside inner braces.
pub(crate) fn split_part(text: &[u8]) -> Part<'_>
    ensures part { result.text.now ≡ part_to 0 (block_to 0 text.now) }
    ensures last { result.is_last ≡ true → (behind_part 0 (block_to 0 text.now) ≡ []) × (result.rest.now ≡ behind_block 0 text.now) }
    ensures more { result.is_last ≡ false → (behind_part 0 (block_to 0 text.now) ≡ block_to 0 result.rest.now)
        × (behind_block 0 text.now ≡ behind_block 0 result.rest.now) × (0 < length (block_to 0 text.now)) }
    ensures shorter { length result.rest.now ≤ length text.now }
    ensures shorter_more { result.is_last ≡ false → length result.rest.now < length text.now }
{
    let Some(end) = memchr3(b'{', b'}', b';', text) else {
        return split_nested(text);
    };
    // Braces in a block are rare.
    if text[end] == b'{' {
        return split_nested(text);
    }
    Part {
        text: &text[..end],
        rest: &text[end + 1..],
        is_last: text[end] == b'}',
    }
}

/// The part at the front of a text where inner braces may stand: they are counted.
fn split_nested(text: &[u8]) -> Part<'_>
    ensures part { result.text.now ≡ part_to 0 (block_to 0 text.now) }
    ensures last { result.is_last ≡ true → (behind_part 0 (block_to 0 text.now) ≡ []) × (result.rest.now ≡ behind_block 0 text.now) }
    ensures more { result.is_last ≡ false → (behind_part 0 (block_to 0 text.now) ≡ block_to 0 result.rest.now)
        × (behind_block 0 text.now ≡ behind_block 0 result.rest.now) × (0 < length (block_to 0 text.now)) }
    ensures shorter { length result.rest.now ≤ length text.now }
    ensures shorter_more { result.is_last ≡ false → length result.rest.now < length text.now }
{
    let mut depth: usize = 0;
    for (i, b) in text.iter().enumerate() {
        match *b {
            b'{' => depth += 1,
            b'}' | b';' if depth == 0 => {
                return Part {
                    text: &text[..i],
                    rest: &text[i + 1..],
                    is_last: *b == b'}',
                };
            }
            b'}' => depth -= 1,
            _ => {}
        }
    }
    Part {
        text,
        rest: &[],
        is_last: true,
    }
}
