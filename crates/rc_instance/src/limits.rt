//! The limits of the whole product, each in one place.

/// The most activities of an instance.
pub const MAX_ACTIVITIES: u32 = 1000;

/// The most resources of an instance.
pub const MAX_RESOURCES: u32 = 16;

/// The greatest capacity of a resource.
pub const MAX_CAPACITY: u32 = 65_535;

/// The greatest sum of the durations of an instance, in periods.
pub const MAX_DURATION_SUM: u32 = 65_535;

/// The most changes in a calendar.
pub const MAX_CHANGES: u32 = 1000;

/// The last period in which a capacity may change.
pub const MAX_CHANGE_PERIOD: u32 = 65_535;

/// The greatest horizon: the last change, and all durations after it, in periods.
pub const MAX_HORIZON: u32 = 131_070;

/// The most bytes of a file.
pub const MAX_FILE_BYTES: u32 = 4_194_304;
