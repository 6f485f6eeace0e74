// The aggregated status' value and the time of its last change.
#![tactic(auto)]

ghost use Rattle.std.specs.Prelude.{◌≡◌};
ghost use Rattle.aggregated.specs.Aggregated.{beginning, set_of};
ghost use Rattle.aggregated.specs.Issued.{issued_of};

use entry::Entry;

// The eight booleans, first highest, in the low byte of value.
#[repr(C)]
#[derive(Clone, Copy)]
pub struct Aggregated {
    pub time: u64,
    pub value: u64,
}

#[derive(Clone, Copy)]
pub struct Set {
    pub aggregated: Aggregated,
    pub changed: bool,
}

impl Aggregated {
    pub fn begin(time: u64) -> Aggregated
        ensures { result ≡ beginning time }
    {
        Aggregated {
            time: time,
            value: 0,
        }
    }

    #[tactic(auto, unfolding(crate::specs::Aggregated::set_of))]
    pub fn set(self, value: u8, time: u64) -> Set
        ensures { result ≡ set_of self value time }
    {
        let next = u64::from(value);
        if self.value == next {
            return Set {
                aggregated: self,
                changed: false,
            };
        }
        let a = Aggregated {
            time: time,
            value: next,
        };
        Set {
            aggregated: a,
            changed: true,
        }
    }

    // The record of the last change for a link, before it has its sequence number.
    pub fn issued(self, link: u16) -> Entry
        ensures { result ≡ issued_of self link }
    {
        Entry {
            time: self.time,
            value: bits::low(self.value, 8) as u32,
            sequence: 0,
            link: link,
            kind: entry::AGGREGATED,
            item: 0,
            flags: 0,
        }
    }
}
