use std::collections::LinkedList;

// What a worker knows of the queue. Contracts alone see it: no value of it is made.
pub(crate) struct Hand {
    // Its parts of the right to know what all workers took.
    pub(crate) parts: u64,

    // How many jobs were pushed.
    pub(crate) pushed: u32,

    // The jobs that it took.
    pub(crate) taken: LinkedList<u32>,
}
