//! Words of the table.

/// A word, and those behind it.
pub(crate) fn first_word(words: &str) -> (&str, &str) {
    words.split_once(' ').unwrap_or((words, ""))
}

/// A word without what its colon has behind it, and that.
pub(crate) fn argument(word: &str) -> (&str, &str) {
    word.split_once(':').unwrap_or((word, ""))
}
