//! The names of taps.

use std::alloc::{AllocError, Global};

/// Returns the names of the taps with these capture files: the last part of each path, or the whole
/// path if another capture has the same last part. `AllocError` if an allocation failed.
pub(crate) fn tap_names<'a>(alloc: Global, files: &[&'a str]) -> Result<Vec<&'a str>, AllocError> {
    let mut names = Vec::new(alloc);
    for file in files {
        let name = last_part(file);
        let same = files
            .iter()
            .filter(|other| last_part(other) == name)
            .count();
        names.push(if same == 1 { name } else { *file })?;
    }
    Ok(names)
}

/// Returns the last part of a path.
fn last_part(path: &str) -> &str {
    match path.rsplit_once('/') {
        Some((_, last)) => last,
        None => path,
    }
}
