//! The known word that was meant by an unknown one.

ghost use Rattle.std.specs.Prelude.{◌≡◌, ℕ, List, IfNone, IfOk, IfSome, map};
ghost use Rattle.its_words.specs.Nearest.{IsFar, IsMeant, IsNearest};

use std::alloc::{AllocError, Global};
use strsim::osa_distance;

/// A thing that is named by one word.
pub trait Spelled {
    /// The word of each thing.
    ghost spelling_of: { Self → List ℕ };

    /// Returns its word.
    fn spelling(self) -> &'static str
        ensures { result.now ≡ spelling_of self };
}

impl Spelled for &'static str {
    ghost spelling_of = { λ word. word.now };

    fn spelling(self) -> &'static str {
        self
    }
}

/// The greatest number of changed letters between a word and the one that was meant. An exchange of
/// two neighbouring letters is one change.
const MOST_CHANGES: usize = 2;

/// Returns which of the known things may be meant by an unknown word: the first one whose word
/// needs the fewest changes of a letter, at most two. `None` if each needs more. Fails if an
/// allocation failed.
pub fn nearest<T: Spelled + Copy>(
    alloc: Global,
    word: &str,
    known: &[T],
) -> Result<Option<T>, AllocError>
    ensures some { IfOk result (λ found.
        IfSome found (IsMeant T.spelling_of word.now known.now)) }
    ensures none { IfOk result (λ found.
        IfNone found (IsFar word.now (map T.spelling_of known.now))) }
{
    match nearest_place(alloc, word, known)? {
        Some(place) => Ok(known.get(place).copied()),
        None => Ok(None),
    }
}

/// Returns the index of that one among them.
fn nearest_place<T: Spelled + Copy>(
    alloc: Global,
    word: &str,
    known: &[T],
) -> Result<Option<usize>, AllocError>
    ensures some { IfOk result (λ found.
        IfSome found (IsNearest word.now (map T.spelling_of known.now))) }
    ensures none { IfOk result (λ found.
        IfNone found (IsFar word.now (map T.spelling_of known.now))) }
{
    let mut found = None;
    let mut fewest = MOST_CHANGES + 1;
    for (place, meant) in known.iter().enumerate() {
        let changes = osa_distance(alloc, word, meant.spelling())?;
        if changes < fewest {
            found = Some(place);
            fewest = changes;
        }
    }
    Ok(found)
}
