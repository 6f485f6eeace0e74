// A record's line written, and a line's fields read back to the record.
#![tactic(auto)]

pub mod write; // write.rt: a record's fields, by its kind
mod guess; // guess.rt: the one record that twelve texts can be the fields of
pub mod judge; // judge.rt: twelve texts held against that record

// How long a line is at most.
pub const ROOM: usize = 66;

// The first reason against a line.
#[derive(Clone, Copy)]
pub enum Reason {
    Quoting,
    Count,
    Kind,
    Presence,
    Contents,
}
