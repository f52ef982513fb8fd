/// The most bytes that the text of a program has.
pub const TEXT_LIMIT: usize = 16_384;

/// The most words that the memory of a program has.
pub const WORD_LIMIT: usize = 4_096;

/// The most scans that a script has.
pub const SCAN_LIMIT: u32 = 2_000;

/// The longest scan time, in milliseconds.
pub const SCAN_TIME_LIMIT: i64 = 10_000;

/// The least count: counts have 16 bits.
pub const LEAST_COUNT: i64 = -32_768;

/// The greatest count.
pub const GREATEST_COUNT: i64 = 32_767;
