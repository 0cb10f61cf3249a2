//! A character of a text from outside.

use std::fmt;

/// Writes a character of a text from outside. A backslash is doubled. A character that could begin
/// a line or change the direction of text is written by its number, for example `\u000a`.
pub(crate) fn write_letter<W: fmt::Write>(f: &mut fmt::Formatter<W>, letter: char) -> fmt::Result {
    match letter {
        '\\' => f.write_str("\\\\"),
        _ if is_hidden(letter) => write!(f, "\\u{:04x}", letter as u32),
        _ => f.write_char(letter),
    }
}

/// Whether a character is a control character, a separator of lines or paragraphs, or a mark of the
/// direction of text.
fn is_hidden(letter: char) -> bool {
    matches!(
        letter as u32,
        0..=0x1f | 0x7f..=0x9f | 0x61c | 0x200e | 0x200f | 0x2028..=0x202e | 0x2066..=0x2069
    )
}
