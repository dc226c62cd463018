/// An activity with the start that a plan gives it.
#[derive(Clone, Copy, Debug, PartialEq, Eq)]
pub struct Placement {
    /// The number of the activity, as the plan has it.
    pub activity: u32,

    /// Its start, in periods.
    pub start: u32,
}
