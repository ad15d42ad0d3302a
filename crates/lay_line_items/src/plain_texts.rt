//! The widths of texts of ASCII, gathered in one pass.

ghost use Rattle.std.specs.Prelude.{◌≡◌, ◌==◌, ◌≤◌, ◌<◌, ◌∷◌, Bool, true, false, length, drop, slice_index, None, Some, IfOk, IfSome};
ghost use Rattle.lay_face.specs.Clusters.{IsUsedSetting, widths_of};
ghost use Rattle.lay_face.specs.PlainTexts.{IsPlain, plain_widths};
ghost use Rattle.lay_space.specs.CleanTexts.{IsClean};
ghost use Rattle.lay_line_items.specs.GatheredWidths.{gathered, gathered_after};
ghost use Rattle.lay_line_items.specs.PlainWords.{is_in_word, parts_words};

use crate::gathered::sum;
use lay_face::{Face, Setting, put_width};
use lay_units::{NoMemory, Unit, WidthList};
use std::alloc::Global;

/// The widths of the clusters of a plain text of at most 2^20 bytes, with those that no line breaks between as one.
pub fn plain_gathered(
    alloc: Global,
    face: &Face,
    setting: Setting,
    text: &[u8],
) -> Result<WidthList, NoMemory>
    requires plain { IsPlain text.now }
    requires short { length text.now ≤ 1048576 }
    requires used { IsUsedSetting setting }
    ensures { IfOk result (λ l. l ≡ gathered text.now (widths_of face.now setting text.now)) }
{
    let mut out = Vec::with_capacity(alloc, text.len() / 2 + 1)?;
    let mut from = 0;
    while from < text.len() {
        let part = part_at(face, setting, text, from);
        put_width(&mut out, from, part.width)?;
        from = part.to;
    }
    Ok(WidthList::new(out))
}

/// The widths of the grapheme clusters of any text, where a look at its characters says that white space processing leaves it as it is.
pub fn clean_gathered(
    alloc: Global,
    face: &Face,
    setting: Setting,
    text: &[u8],
) -> Result<Option<WidthList>, NoMemory>
    requires short { length text.now ≤ 1048576 }
    requires used { IsUsedSetting setting }
    ensures { IfOk result (λ o. IfSome o (λ l. IsClean false text.now × (l ≡ gathered text.now (widths_of face.now setting text.now)))) }
{
    let mut out = Vec::with_capacity(alloc, text.len() / 2 + 1)?;
    let mut from = 0;
    let mut after_space = false;
    while from < text.len() {
        let Some(part) = clean_part_at(face, setting, text, from, after_space) else {
            return Ok(None);
        };
        put_width(&mut out, from, part.width)?;
        after_space = text[from] == b' ';
        from = part.to;
    }
    Ok(Some(WidthList::new(out)))
}

/// Where a word or a space of a text ends, and its width.
#[derive(Clone, Copy)]
struct Word {
    to: usize,
    width: Unit,
}

/// The word or the space that begins at a place of a plain text.
fn part_at(face: &Face, setting: Setting, text: &[u8], from: usize) -> Word
    requires plain { IsPlain text.now }
    requires short { length text.now ≤ 1048576 }
    requires used { IsUsedSetting setting }
    requires inside { from < length text.now }
    ensures gathered { gathered_after text.now None (plain_widths face.now setting from (drop from text.now))
        ≡ record { place = from; width = result.width }
        ∷ gathered_after text.now None (plain_widths face.now setting result.to (drop result.to text.now)) }
    ensures forward { from < result.to }
    ensures inside { result.to ≤ length text.now }
{
    if is_in_word(text[from]) {
        return word_at(face, setting, text, from);
    }
    Word {
        to: from + 1,
        width: face.ascii_width(text[from], setting),
    }
}

/// The same of a text of which `after_space` says whether the part stands behind a space, where white space processing
/// leaves it.
fn clean_part_at(
    face: &Face,
    setting: Setting,
    text: &[u8],
    from: usize,
    after_space: bool,
) -> Option<Word>
    requires short { length text.now ≤ 1048576 }
    requires used { IsUsedSetting setting }
    requires inside { from < length text.now }
    ensures gathered { IfSome result (λ w. gathered_after text.now None (plain_widths face.now setting from (drop from text.now))
        ≡ record { place = from; width = w.width }
        ∷ gathered_after text.now None (plain_widths face.now setting w.to (drop w.to text.now))) }
    ensures clean { IfSome result
        (λ w. IsClean (slice_index text.now from == 32) (drop w.to text.now) → IsClean after_space (drop from text.now)) }
    ensures forward { IfSome result (λ w. from < w.to) }
    ensures inside { IfSome result (λ w. w.to ≤ length text.now) }
{
    if is_in_word(text[from]) {
        let word = word_at(face, setting, text, from);
        if word.to < text.len() && text[word.to] != b' ' {
            return None;
        }
        return Some(word);
    }
    if after_space || text[from] != b' ' {
        return None;
    }
    Some(Word {
        to: from + 1,
        width: face.ascii_width(text[from], setting),
    })
}

/// The word that begins at a place of a text. It ends before what isn't in a word.
#[inline(always)]
fn word_at(face: &Face, setting: Setting, text: &[u8], from: usize) -> Word
    requires short { length text.now ≤ 1048576 }
    requires used { IsUsedSetting setting }
    requires inside { from < length text.now }
    requires begins { is_in_word (slice_index text.now from) ≡ true }
    ensures gathered { gathered_after text.now None (plain_widths face.now setting from (drop from text.now))
        ≡ gathered_after text.now (Some (record { place = from; width = result.width }))
        (plain_widths face.now setting result.to (drop result.to text.now)) }
    ensures clean { (before : Bool) → IsClean false (drop result.to text.now) → IsClean before (drop from text.now) }
    ensures ends { result.to < length text.now → is_in_word (slice_index text.now result.to) ≡ false }
    ensures forward { from < result.to }
    ensures inside { result.to ≤ length text.now }
{
    let mut width = face.letter_width(text[from], setting);
    for to in from + 1..text.len() {
        if !is_in_word(text[to]) {
            return Word { to, width };
        }
        width = sum(width, face.letter_width(text[to], setting));
    }
    Word {
        to: text.len(),
        width,
    }
}

/// Whether a byte is a character of a word.
fn is_in_word(byte: u8) -> bool
    ensures { result ≡ is_in_word byte }
{
    byte < 128 && !parts_words(byte) && byte != b'\r'
}

/// Whether a character of a plain text stands alone.
fn parts_words(byte: u8) -> bool
    ensures { result ≡ parts_words byte }
{
    byte == b' ' || byte == b'\n' || byte == b'\t'
}
