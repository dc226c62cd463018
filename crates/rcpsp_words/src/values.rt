//! The values of options: one file a kind, and `value` over all kinds.

pub(crate) mod form;
pub(crate) mod format;
pub(crate) mod live;
pub(crate) mod name;
pub(crate) mod number;
pub(crate) mod order;
pub(crate) mod rounds;
pub(crate) mod rule;
pub(crate) mod samples;
pub(crate) mod shown;
pub(crate) mod size;
pub(crate) mod value;
pub(crate) mod workers;
