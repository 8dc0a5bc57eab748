// The views that are kept of the records that a piece judges.

ghost use Rattle.std.specs.Prelude.{◌≡◌, length};

use apex_types::View;

/// The views of the records that a piece has judged, in their order, and the indices of these records in their round.
#[derive(Drop)]
pub struct Kept {
    pub indices: Vec<usize>,
    pub views: Vec<View>,
    pub ghost even: { length indices.items ≡ length views.items },
}
