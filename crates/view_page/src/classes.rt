// The classes by which the style names what is shown.

ghost use Rattle.std.specs.Prelude.{◌≡◌, IfSome, true};
ghost use Rattle.sink.specs.Own.{is_own};

use view_picture::{ArrowKind, LaneKey, Look, MarkKind, Status};

// The classes of a bar. Each look has a colour, and a pattern if two looks could be confused.
pub(crate) fn classes_of_look(look: Look) -> &'static str
    ensures { is_own result.now ≡ true }
{
    match look {
        Look::Window => "bar window",
        Look::NoWindow => "bar no-window",
        Look::Occupied => "bar occupied",
        Look::Idle => "bar idle",
        Look::Normal => "bar normal",
        Look::OtherMode => "bar other-mode",
        Look::Running => "bar running",
        Look::Raised => "bar raised",
        Look::Ready => "bar ready",
        Look::Preempted => "bar preempted",
        Look::Waiting => "bar waiting",
        Look::Suspended => "bar suspended",
        Look::Faulted => "bar faulted",
        Look::Dormant => "bar dormant",
        Look::Free => "bar free",
        Look::Awaited => "bar awaited",
    }
}

// The pattern over the colour of a bar, if there is one.
pub(crate) fn pattern_of(look: Look) -> Option<&'static str>
    ensures { IfSome result (λ pattern. is_own pattern.now ≡ true) }
{
    match look {
        Look::Preempted => Some("url(#stripes)"),
        Look::Waiting => Some("url(#dots)"),
        Look::Suspended => Some("url(#grid)"),
        Look::Faulted => Some("url(#crosses)"),
        Look::NoWindow => Some("url(#stripes)"),
        Look::Window
        | Look::Occupied
        | Look::Idle
        | Look::Normal
        | Look::OtherMode
        | Look::Running
        | Look::Raised
        | Look::Ready
        | Look::Dormant
        | Look::Free
        | Look::Awaited => None,
    }
}

// The class of a lane.
pub(crate) fn class_of_lane(key: &LaneKey) -> &'static str
    ensures { is_own result.now ≡ true }
{
    match key {
        LaneKey::Core(_) => "core",
        LaneKey::Partition(_) => "partition",
        LaneKey::Process(_) => "process",
        LaneKey::Thing(_) => "thing",
    }
}

// The class of a record.
pub(crate) fn class_of_status(status: Status) -> &'static str
    ensures { is_own result.now ≡ true }
{
    match status {
        Status::Accepted => "accepted",
        Status::Rejected => "rejected",
        Status::Broken => "broken",
        Status::After | Status::Beyond => "after",
    }
}

// The classes of a record in the lane of its core.
pub(crate) fn class_of_slot(status: Status) -> &'static str
    ensures { is_own result.now ≡ true }
{
    match status {
        Status::Accepted => "record accepted",
        Status::Rejected => "record rejected",
        Status::Broken => "record broken",
        Status::After | Status::Beyond => "record after",
    }
}

// The classes of a record in the lane of its core in a major frame, which a strip shows too.
pub(crate) fn class_of_again(status: Status) -> &'static str
    ensures { is_own result.now ≡ true }
{
    match status {
        Status::Accepted => "again accepted",
        Status::Rejected => "again rejected",
        Status::Broken => "again broken",
        Status::After | Status::Beyond => "again after",
    }
}

// The class of the ground of a record, if it has one of its own.
pub(crate) fn class_of_ground(status: Status, is_named: bool) -> Option<&'static str>
    ensures { IfSome result (λ class. is_own class.now ≡ true) }
{
    match status {
        Status::Accepted if is_named => Some("ground-named"),
        Status::Accepted => None,
        Status::Rejected => Some("ground-rejected"),
        Status::Broken => Some("ground-rejected"),
        Status::After | Status::Beyond => Some("ground-after"),
    }
}

// The class of a mark at the left edge of a record.
pub(crate) fn class_of_point(kind: MarkKind) -> &'static str
    ensures { is_own result.now ≡ true }
{
    match kind {
        MarkKind::Tick => "tick",
        MarkKind::Dispatch => "dispatch",
        MarkKind::Call | MarkKind::Crossing => "call",
        MarkKind::Return => "return",
        MarkKind::Restart => "restart",
        MarkKind::Error => "error",
        MarkKind::Rejected | MarkKind::Unlawful => "unlawful",
        MarkKind::Lawful => "lawful",
    }
}

// The classes of a mark with its text.
pub(crate) fn classes_of_box(kind: MarkKind) -> &'static str
    ensures { is_own result.now ≡ true }
{
    match kind {
        MarkKind::Lawful => "mark lawful",
        MarkKind::Rejected
        | MarkKind::Unlawful
        | MarkKind::Tick
        | MarkKind::Dispatch
        | MarkKind::Call
        | MarkKind::Return
        | MarkKind::Crossing
        | MarkKind::Error
        | MarkKind::Restart => "mark unlawful",
    }
}

// The sign before the text of a mark.
pub(crate) fn sign_of_box(kind: MarkKind) -> &'static str
    ensures { is_own result.now ≡ true }
{
    match kind {
        MarkKind::Lawful => "✓ ",
        MarkKind::Rejected
        | MarkKind::Unlawful
        | MarkKind::Tick
        | MarkKind::Dispatch
        | MarkKind::Call
        | MarkKind::Return
        | MarkKind::Crossing
        | MarkKind::Error
        | MarkKind::Restart => "✗ ",
    }
}

// The classes of an arrow.
pub(crate) fn classes_of_arrow(kind: ArrowKind) -> &'static str
    ensures { is_own result.now ≡ true }
{
    match kind {
        ArrowKind::Wake => "arrow wake",
        ArrowKind::Message => "arrow message",
    }
}

// What an arrow shows, in words.
pub(crate) fn words_of_arrow(kind: ArrowKind) -> &'static str
    ensures { is_own result.now ≡ true }
{
    match kind {
        ArrowKind::Wake => "ends its wait",
        ArrowKind::Message => "the message",
    }
}

// The tag that begins the row of a record.
pub(crate) fn tag_of_row(status: Status) -> &'static str
    ensures { is_own result.now ≡ true }
{
    match status {
        Status::Accepted => "<tr>",
        Status::Rejected => "<tr class=\"rejected\" id=\"fault\">",
        Status::Broken => "<tr class=\"broken\" id=\"fault\">",
        Status::After | Status::Beyond => "<tr class=\"after\">",
    }
}
