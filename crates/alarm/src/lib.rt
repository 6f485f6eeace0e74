// One alarm: what an input and what a supervisor's order make of it.
#![tactic(auto)]

ghost use Rattle.std.specs.Prelude.{◌≡◌};
ghost use Rattle.basis.specs.Pick.{pick};
ghost use Rattle.alarm.specs.Issued.{issued_of};
ghost use Rattle.alarm.specs.Alarm.{beginning, input_of, acknowledge_of, suspend_of, order_of};

use entry::{Entry, flags};

// The last event, its aSp (0 Issue, 1 Acknowledge, 2 Suspend) and its time, and the states (1 or 0).
#[repr(C)]
#[derive(Clone, Copy)]
pub struct Alarm {
    pub time: u64,
    pub event: u16,
    pub acknowledged: u16,
    pub active: u16,
    pub suspended: u16,
}

// What a supervisor can order; to ask for the alarm's states changes nothing.
#[derive(Clone, Copy)]
pub enum Order {
    Acknowledge,
    Suspend,
    Resume,
}

// The alarm afterwards, whether there was an event, and whether it makes a record.
#[derive(Clone, Copy)]
pub struct Changed {
    pub alarm: Alarm,
    pub happened: bool,
    pub records: bool,
}

// Becoming active clears the acknowledgement.
fn acknowledged_after(acknowledged: u16, active: bool) -> u16
    ensures { result ≡ pick active 0 acknowledged }
{
    if active { 0 } else { acknowledged }
}

impl Alarm {
    pub fn begin(time: u64) -> Alarm
        ensures { result ≡ beginning time }
    {
        Alarm {
            time: time,
            event: 0,
            acknowledged: 1,
            active: 0,
            suspended: 0,
        }
    }

    #[tactic(auto, unfolding(crate::specs::Alarm::input_of))]
    pub fn input(self, active: bool, time: u64) -> Changed
        ensures { result ≡ input_of self active time }
    {
        let next = u16::from(active);
        if self.active == next {
            return Changed {
                alarm: self,
                happened: false,
                records: false,
            };
        }
        let a = Alarm {
            time: time,
            event: 0,
            acknowledged: acknowledged_after(self.acknowledged, active),
            active: next,
            suspended: self.suspended,
        };
        Changed {
            alarm: a,
            happened: true,
            records: self.suspended == 0,
        }
    }

    #[tactic(auto, unfolding(crate::specs::Alarm::acknowledge_of))]
    fn acknowledge(self, time: u64) -> Changed
        ensures { result ≡ acknowledge_of self time }
    {
        if self.acknowledged == 1 {
            return Changed {
                alarm: self,
                happened: false,
                records: false,
            };
        }
        let a = Alarm {
            time: time,
            event: 1,
            acknowledged: 1,
            active: self.active,
            suspended: self.suspended,
        };
        Changed {
            alarm: a,
            happened: true,
            records: true,
        }
    }

    #[tactic(auto, unfolding(crate::specs::Alarm::suspend_of))]
    fn suspend(self, suspended: bool, time: u64) -> Changed
        ensures { result ≡ suspend_of self suspended time }
    {
        let next = u16::from(suspended);
        if self.suspended == next {
            return Changed {
                alarm: self,
                happened: false,
                records: false,
            };
        }
        let a = Alarm {
            time: time,
            event: 2,
            acknowledged: self.acknowledged,
            active: self.active,
            suspended: next,
        };
        Changed {
            alarm: a,
            happened: true,
            records: true,
        }
    }

    pub fn order(self, order: Order, time: u64) -> Changed
        ensures { result ≡ order_of self order time }
    {
        match order {
            Order::Acknowledge => self.acknowledge(time),
            Order::Suspend => self.suspend(true, time),
            Order::Resume => self.suspend(false, time),
        }
    }

    // The record of the last event for a link, before it has its sequence number.
    pub fn issued(self, link: u16, number: u16) -> Entry
        ensures { result ≡ issued_of self link number }
    {
        let states = flags::of_alarm(
            self.event,
            self.acknowledged == 1,
            self.active == 1,
            self.suspended == 1,
        );
        Entry {
            time: self.time,
            value: 0,
            sequence: 0,
            link: link,
            kind: entry::ALARM,
            item: number,
            flags: states,
        }
    }
}
