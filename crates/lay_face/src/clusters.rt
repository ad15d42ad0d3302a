//! Widths of grapheme clusters.

ghost use Rattle.std.specs.Prelude.{
  ◌≡◌,
  ◌≢◌,
  ◌<◌,
  if◌then◌else◌,
  pos,
  ◌+ℤ◌,
  ◌≤ℤ◌,
  neg_ℤ,
  IfOk,
  OnOk,
  IsTrue,
  ◌↔◌,
  [],
  ◌∷◌,
  ◌++◌,
};
ghost use Rattle.lay_units.specs.Units.{IsPosition, IsUsed};
ghost use Rattle.lay_face.specs.Faces.{IsMeasure};
ghost use Rattle.lay_face.specs.PlainTexts.{IsNear, IsPlain, plain_width_of};
ghost use Rattle.lay_face.specs.Clusters.{
  is_word_space,
  char_width,
  spacing_after,
  cluster_width,
  widths_of,
  IsUsedSetting,
  TextSettingFits,
  WidthsFit,
};

use crate::face::Face;
use lay_units::{ClusterWidth, NoMemory, Unit, WidthList};
use std::alloc::Global;
use unicode_segmentation::UnicodeSegmentation;

/// What a text is set in beside its face: the font size, letter-spacing and word-spacing.
#[derive(Clone, Copy)]
pub struct Setting {
    pub size: Unit,
    pub letter: Unit,
    pub word: Unit,
}

impl Face {
    /// The byte place and the width of each grapheme cluster of a text: the advances of its characters
    /// at this font size, with `word` at each U+0020 and U+00A0, and `letter` once. The lengths given and
    /// those that follow are below 2^62 units of 1/64 px in absolute value.
    pub fn cluster_widths(
        &self,
        alloc: Global,
        text: &str,
        size: Unit,
        letter: Unit,
        word: Unit,
    ) -> Result<WidthList, NoMemory>
        requires { WidthsFit self.now (record { size = size; letter = letter; word = word }) text.now }
        ensures { IfOk result (λ l. l ≡ widths_of self.now
            (record { size = size; letter = letter; word = word }) text.now) }
    {
        let setting = Setting { size, letter, word };
        let bytes = text.as_bytes();
        if is_plain(bytes) {
            return self.plain_widths(alloc, bytes, setting);
        }
        let mut widths = Vec::new(alloc);
        let mut place = 0;
        for cluster in text.graphemes(true) {
            let width = self.cluster_width(cluster, setting);
            put_width(&mut widths, place, width)?;
            place += cluster.len();
        }
        Ok(WidthList::new(widths))
    }

    /// The widths of a text in which each byte is a cluster.
    fn plain_widths(
        &self,
        alloc: Global,
        text: &[u8],
        setting: Setting,
    ) -> Result<WidthList, NoMemory>
        requires plain { IsPlain text.now }
        requires fits { WidthsFit self.now setting text.now }
        ensures { IfOk result (λ l. l ≡ widths_of self.now setting text.now) }
    {
        let mut widths = Vec::with_capacity(alloc, text.len())?;
        for k in 0..text.len() {
            let width = self.plain_width(text[k], setting);
            put_width(&mut widths, k, width)?;
        }
        Ok(WidthList::new(widths))
    }

    /// The width of a character of a plain text, in 1/64 px: below 2^62 units in absolute value, and 0 for a linefeed.
    fn plain_width(&self, byte: u8, setting: Setting) -> Unit
        requires setting { TextSettingFits self.now setting }
        requires width { IsPosition (plain_width_of self.now setting byte) }
        ensures { result.0 ≡ plain_width_of self.now setting byte }
    {
        if byte == b'\n' {
            return Unit(0);
        }
        let width = self.char_width(char::from(byte), setting);
        spaced(width, setting.letter)
    }

    /// The width of a character of ASCII, in 1/64 px, where the lengths of the setting are used lengths: 0 for a linefeed, and at
    /// most 2^36 units from 0.
    pub fn ascii_width(&self, byte: u8, setting: Setting) -> Unit
        requires ascii { byte < 128 }
        requires used { IsUsedSetting setting }
        ensures value { result.0 ≡ plain_width_of self.now setting byte }
        ensures near { IsNear result.0 }
    {
        if byte == b'\n' {
            return Unit(0);
        }
        let advance = self.ascii_advance(byte, setting.size);
        let word = word_spacing(byte, setting.word);
        with_spacings(advance, word, setting.letter)
    }

    /// The width of a character of ASCII that is neither a space nor a linefeed (CSS 2.2, 16.4), in 1/64 px: its advance and
    /// `letter-spacing`.
    pub fn letter_width(&self, byte: u8, setting: Setting) -> Unit
        requires ascii { byte < 128 }
        requires space { byte ≢ 32 }
        requires linefeed { byte ≢ 10 }
        requires used { IsUsedSetting setting }
        ensures value { result.0 ≡ plain_width_of self.now setting byte }
        ensures near { IsNear result.0 }
    {
        let advance = self.ascii_advance(byte, setting.size);
        with_spacings(advance, Unit(0), setting.letter)
    }

    fn cluster_width(&self, cluster: &str, setting: Setting) -> Unit
        requires setting { TextSettingFits self.now setting }
        requires width { IsPosition (cluster_width self.now setting cluster.now) }
        ensures { result.0 ≡ cluster_width self.now setting cluster.now }
    {
        let mut total = spacing_after(cluster, setting);
        for c in cluster.chars() {
            total += i128::from(self.char_width(c, setting));
        }
        narrowed(total)
    }

    fn char_width(&self, c: char, setting: Setting) -> i64
        requires { TextSettingFits self.now setting }
        ensures value { result ≡ char_width self.now setting c }
        ensures low { neg_ℤ (pos 9223372036854775806) ≤ℤ result }
        ensures high { result ≤ℤ pos 9223372036854775806 }
    {
        if c == '\n' {
            return 0;
        }
        let advance = self.advance(c, setting.size);
        if is_word_space(c) {
            return sum(advance, setting.word);
        }
        advance.0
    }
}

/// The word-spacing at a character of ASCII.
fn word_spacing(byte: u8, word: Unit) -> Unit
    requires ascii { byte < 128 }
    requires word { IsUsed word.0 }
    ensures value { result.0 ≡ (if is_word_space byte then word.0 else pos 0) }
    ensures used { IsUsed result.0 }
{
    if byte == b' ' { word } else { Unit(0) }
}

fn with_spacings(advance: Unit, word: Unit, letter: Unit) -> Unit
    requires advance { IsMeasure advance.0 }
    requires word { IsUsed word.0 }
    requires letter { IsUsed letter.0 }
    ensures value { result.0 ≡ advance.0 +ℤ word.0 +ℤ letter.0 }
    ensures near { IsNear result.0 }
{
    Unit(advance.0 + word.0 + letter.0)
}

fn sum(a: Unit, b: Unit) -> i64
    requires a { IsPosition a.0 }
    requires b { IsPosition b.0 }
    ensures value { result ≡ a.0 +ℤ b.0 }
    ensures low { neg_ℤ (pos 9223372036854775806) ≤ℤ result }
    ensures high { result ≤ℤ pos 9223372036854775806 }
{
    a.0 + b.0
}

fn narrowed(width: i128) -> Unit
    requires { IsPosition width }
    ensures { result.0 ≡ width }
{
    Unit(width as i64)
}

fn spaced(width: i64, letter: Unit) -> Unit
    requires { IsPosition (width +ℤ letter.0) }
    ensures { result.0 ≡ width +ℤ letter.0 }
{
    Unit(width + letter.0)
}

/// The letter-spacing after a cluster: none after a linefeed.
fn spacing_after(cluster: &str, setting: Setting) -> i128
    requires { IsPosition setting.letter.0 }
    ensures value { result ≡ spacing_after setting cluster.now }
    ensures fits { IsPosition result }
{
    let bytes = cluster.as_bytes();
    if bytes.len() == 1 && bytes[0] == b'\n' {
        return 0;
    }
    i128::from(setting.letter.0)
}

fn is_word_space(c: char) -> bool
    ensures { result ≡ is_word_space c }
{
    c == ' ' || c == '\u{a0}'
}

/// Whether each byte is ASCII and none is a CR, so that each is a grapheme cluster.
pub fn is_plain(text: &[u8]) -> bool
    ensures { IsTrue result ↔ IsPlain text.now }
{
    for k in 0..text.len() {
        if text[k] > 127 || text[k] == b'\r' {
            return false;
        }
    }
    true
}

/// Puts a width, in 1/64 px, of what begins at this byte of a text behind these.
#[inline(always)]
pub fn put_width(widths: &mut Vec<ClusterWidth>, place: usize, width: Unit) -> Result<(), NoMemory>
    ensures { OnOk result (widths.new.items ≡ widths.old.items ++ record {
      place = place;
      width = width;
    } ∷ []) }
{
    widths.push(ClusterWidth { place, width })?;
    Ok(())
}
