/// A change of a calendar: from `period` on, `resource` has `capacity`, until its next change.
#[derive(Clone, Copy, Debug, PartialEq, Eq)]
pub struct Change {
    /// The resource, numbered from 1.
    pub resource: u32,

    /// The first period of the new capacity, at least 1.
    pub period: u32,

    /// The capacity from that period on.
    pub capacity: u32,
}
