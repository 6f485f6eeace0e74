// The names of the message types, by their numbers in the table.
pub const VERSION: usize = 0;

pub const WATCHDOG: usize = 1;

pub const MESSAGE_ACK: usize = 2;

pub const MESSAGE_NOT_ACK: usize = 3;

pub const ALARM: usize = 4;

pub const AGGREGATED_STATUS: usize = 5;

pub const AGGREGATED_STATUS_REQUEST: usize = 6;

pub const STATUS_REQUEST: usize = 7;

pub const STATUS_RESPONSE: usize = 8;

pub const STATUS_SUBSCRIBE: usize = 9;

pub const STATUS_UNSUBSCRIBE: usize = 10;

pub const STATUS_UPDATE: usize = 11;

pub const COMMAND_REQUEST: usize = 12;

pub const COMMAND_RESPONSE: usize = 13;

pub const STATUS_REQUEST_ACK_INCLUDED: usize = 14;

pub const STATUS_RESPONSE_ACK_INCLUDED: usize = 15;

pub const COMMAND_REQUEST_ACK_INCLUDED: usize = 16;

pub const COMMAND_RESPONSE_ACK_INCLUDED: usize = 17;

pub const END: usize = 18;
