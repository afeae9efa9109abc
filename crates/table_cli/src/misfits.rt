//! What becomes of the lines of a saved file that can't be loaded; `loading` goes by it.

/// What becomes of the lines of a saved file that can't be loaded, such as those of a table that is gone. A line whose entry finds its
/// shard full is skipped either way, and a file that is cut is refused.
#[derive(Clone, Copy, Debug, PartialEq, Eq)]
pub enum Misfits {
    /// The first one ends loading.
    Refused,
    /// They are skipped, and told.
    Skipped,
}
