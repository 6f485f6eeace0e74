// One status' value: none so far, or the last that was set.
#![tactic(auto)]

ghost use Rattle.std.specs.Prelude.{◌≡◌};
ghost use Rattle.number.specs.Signed.{word_of};
ghost use Rattle.status.specs.Status.{unknown as unknown_of, set_of, held_of};
ghost use Rattle.status.specs.Issued.{issued_of};

use entry::{Entry, flags};

// A signed value in two's complement; known is 1 once one was set. All zero: no value so far.
#[repr(C)]
#[derive(Clone, Copy)]
pub struct Status {
    pub value: u32,
    pub known: u32,
}

#[derive(Clone, Copy)]
pub struct Set {
    pub status: Status,
    pub changed: bool,
}

impl Status {
    pub fn unknown() -> Status
        ensures { result ≡ unknown_of }
    {
        Status { value: 0, known: 0 }
    }

    // A value is set: news where it is the first, or not the one before.
    pub fn set(self, value: i32) -> Set
        ensures { result ≡ set_of self (word_of value) }
    {
        self.set_word(number::word_of(value))
    }

    fn set_word(self, value: u32) -> Set
        ensures { result ≡ set_of self value }
    {
        let s = Status {
            value: value,
            known: 1,
        };
        Set {
            status: s,
            changed: self.known != 1 || self.value != value,
        }
    }

    // The value, or 0 where there is none.
    pub fn held(self) -> u32
        ensures { result ≡ held_of self }
    {
        if self.known == 1 { self.value } else { 0 }
    }

    // The record of the value for a link, before it has its sequence number.
    pub fn issued(self, link: u16, number: u16, time: u64, old: bool) -> Entry
        ensures { result ≡ issued_of self link number time old }
    {
        Entry {
            time: time,
            value: self.held(),
            sequence: 0,
            link: link,
            kind: entry::STATUS,
            item: number,
            flags: flags::of_status(self.known == 1, old),
        }
    }
}
