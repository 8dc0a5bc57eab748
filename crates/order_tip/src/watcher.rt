// Who watches a search.

use apex_types::{Cause, Ordered};
use module_config::Config;
use piece_check::Piece;

/// Who watches a search, to show it to a person. Nothing hangs on a watcher.
pub trait Watcher {
    /// So many records are decided.
    fn decided(&mut self, count: u64);

    /// The search goes no further. This is the next record of a core, which this piece rejects for this cause. The piece is as it is
    /// before the record.
    fn rejected(&mut self, config: &Config, piece: &Piece, ordered: &Ordered, cause: Cause);
}
