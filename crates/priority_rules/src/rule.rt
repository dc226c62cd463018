/// Which of the activities that may be listed next comes next; of equal ones that of least number.
#[derive(Clone, Copy, Debug, PartialEq, Eq)]
pub enum Rule {
    /// That of least number.
    Number,

    /// That of least latest finish.
    Lft,

    /// That of least latest start.
    Lst,

    /// That of the most activities that follow it, directly or through others.
    Mts,

    /// That of the greatest positional weight: its duration and those of its direct successors.
    Grpw,
}
