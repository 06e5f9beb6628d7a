//! Limits.

/// The most sessions that may share a host.
pub const MAX_SESSIONS: usize = 64;

/// The most calls that a session may make.
pub const MAX_CALLS: u32 = 4294967295;
