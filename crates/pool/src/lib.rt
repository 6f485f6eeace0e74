// The pool of records that wait to be sent and answered: 128 places for all owners, and how many records each owner lost. An owner is a
// link of a site: 4 times the site's number and the link's. store_pool has its acts.
#![tactic(auto)]

ghost use Rattle.std.specs.Prelude.{◌≡◌};
ghost use Rattle.pool.specs.Pool.{empty_of};

use entry::Entry;

// A place: 0 it is free, 1 its record is not sent, 2 it is sent.
#[repr(C)]
#[derive(Clone, Copy)]
pub struct Place {
    pub entry: Entry,
    pub mark: u64,
}

#[repr(C)]
#[derive(Clone, Copy)]
pub struct Pool {
    pub places: [Place; 128],
    pub lost: [u64; 8],
}

// What is asked of a place.
#[derive(Clone, Copy)]
pub enum Wanted {
    Free,
    Of(u16),
    Unsent(u16),
    Older(u16, u32),
    Numbered(u16, u32),
    Alarm(u16, u16),
}

// A place's index, and what stands there.
#[derive(Clone, Copy)]
pub enum Spot {
    At(usize, Place),
    Nowhere,
}

// Whose oldest record is lost.
#[derive(Clone, Copy)]
pub enum Loser {
    Nobody,
    Owner(u16),
}

// A record that is held, with its mark.
#[derive(Clone, Copy)]
pub enum Sought {
    Found(Place),
    Nothing,
}

// A record's sixteen bytes; zeros where there is none. Of the C interface: no Option.
#[repr(C)]
#[derive(Clone, Copy)]
pub struct Reading {
    pub found: bool,
    pub bytes: [u8; 16],
}

pub const FREE: Place = Place {
    entry: Entry {
        time: 0,
        value: 0,
        sequence: 0,
        link: 0,
        kind: 0,
        item: 0,
        flags: 0,
    },
    mark: 0,
};

impl Pool {
    // Every place free, nothing lost.
    pub fn empty() -> Pool
        ensures { result ≡ empty_of 8 }
    {
        Pool {
            places: [FREE; 128],
            lost: [0; 8],
        }
    }
}
