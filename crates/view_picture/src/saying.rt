// What a bar says.

use crate::look::Look;

/// What a bar says: its look, its text, a shorter and a brief text if there is no room for that, and a longer one for a person who points at
/// the bar. The shorter ones are empty if there are none.
#[derive(Debug, Drop, PartialEq, Eq)]
pub struct Saying {
    pub look: Look,
    pub text: String,
    pub short: String,
    pub brief: String,
    pub title: String,
}
