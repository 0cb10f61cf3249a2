//! The name of a run, as the page shows it.

use cmd_reporting::is_standard;
use std::fmt;

/// The name of a run's file, without its folders. It prints as an attribute of an element has it,
/// and as `standard input` if the file is that.
#[derive(Clone, Copy)]
pub(crate) struct ShownName<'a>(pub(crate) &'a str);

impl fmt::Display for ShownName<'_> {
    fn fmt<W: fmt::Write>(&self, f: &mut fmt::Formatter<W>) -> fmt::Result {
        if is_standard(self.0) {
            return f.write_str("standard input");
        }
        let name = self.0.rsplit('/').next().unwrap_or("");
        for letter in name.chars() {
            match letter {
                '&' => f.write_str("&amp;")?,
                '<' => f.write_str("&lt;")?,
                '"' => f.write_str("&quot;")?,
                _ => f.write_char(letter)?,
            }
        }
        Ok(())
    }
}
