ghost use Rattle.std.specs.Prelude.{◌≡◌};
ghost use Rattle.event_line.specs.Journal.{nodes_with};

/// A booking in the journal of a line, with what it did to the nodes.
#[derive(Clone, Copy)]
pub(crate) struct Entry {
    pub(crate) activity: u32,
    pub(crate) start: u32,

    /// The nodes at its start and its finish. Where it takes no time they are one node, at any period.
    pub(crate) first: u32,
    pub(crate) end: u32,

    /// How many nodes there were with it.
    pub(crate) nodes: u32,
}

// How many nodes there are with the last entry, or before the first one.
pub(crate) fn nodes_with(before: u32, entries: &[Entry]) -> u32
    ensures { result ≡ nodes_with before entries.now }
{
    match entries.last() {
        Some(entry) => entry.nodes,
        None => before,
    }
}
