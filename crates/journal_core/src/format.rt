// The bytes of a journal's file.

/// The gate before a record.
pub const OPEN: u8 = 1;

/// The gate that a journal writes behind its last record.
pub const CLOSED: u8 = 0;

/// How many bytes a gate and a length take.
pub const HEADER: usize = 5;

/// The most bytes of a payload.
pub const MAX_PAYLOAD: usize = (1 << 32) - 1;

/// The most bytes of a journal, up to and with its closed gate.
pub const MAX_LENGTH: u64 = 1 << 40;
