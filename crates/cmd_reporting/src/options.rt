//! How the lines of a command are printed.

/// How the lines of a command are printed.
#[derive(Clone, Copy, Debug, Default, PartialEq, Eq)]
pub struct OutputFormat {
    /// Whether lines are JSON objects instead of text. Lines on standard error are always text.
    pub json: bool,
    /// Whether each line that ends in a code or a keyword of a fault has its sentence after it, in
    /// parentheses. A JSON object always has that sentence.
    pub explain: bool,
}
