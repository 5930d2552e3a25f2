// What a store holds at most.

/// The most records that a store holds: `most_records` of the definitions.
pub const MOST_RECORDS: u32 = 1_000_000;
