// The reasons of a MessageNotAck, by their numbers in the table.
use super::types;

pub const MISSING_ELEMENT: usize = types::END;

pub const BAD_VALUE: usize = types::END + 1;

pub const UNEXPECTED: usize = types::END + 2;

pub const NOT_READY: usize = types::END + 3;

pub const RSMP_VERSION: usize = types::END + 4;

pub const SITE_ID: usize = types::END + 5;

pub const SXL_VERSION: usize = types::END + 6;

pub const UNKNOWN_COMPONENT: usize = types::END + 7;

pub const UNKNOWN_ALARM: usize = types::END + 8;

pub const UNKNOWN_STATUS: usize = types::END + 9;

pub const UNKNOWN_COMMAND: usize = types::END + 10;

pub const BUSY: usize = types::END + 11;

pub const END: usize = types::END + 12;
