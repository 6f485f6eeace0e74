// Runs acts on one alarm, one status with one subscription to it, and the aggregated value, case by case from standard input,
// and writes a line for each; tests/rules.py makes the cases and the lines from a model of its own.
#![tactic(auto)]

use aggregated::Aggregated;
use alarm::{Alarm, Order};
use entry::Entry;
use run_feed::{Case, Fields, Hex, Line};
use status::Status;
use std::fmt;
use std::fmt::Write;
use subscription::Subscription;

#[derive(Clone, Copy)]
struct Rules {
    alarm: Alarm,
    status: Status,
    subscription: Subscription,
    aggregated: Aggregated,
}

// What a case asks for: an act on a part of the rules, or a look at it.
#[derive(Clone, Copy)]
enum Act {
    Begin,
    Input,
    Order(Order),
    SeeAlarm,
    Value,
    Tick,
    Subscribe,
    Unsubscribe,
    SeeStatus,
    Aggregate,
    SeeAggregated,
}

impl From<u8> for Act {
    fn from(kind: u8) -> Act {
        match kind {
            b'0' => Act::Begin,
            b'i' => Act::Input,
            b'k' => Act::Order(Order::Acknowledge),
            b's' => Act::Order(Order::Suspend),
            b'r' => Act::Order(Order::Resume),
            b'A' => Act::SeeAlarm,
            b'v' => Act::Value,
            b't' => Act::Tick,
            b'b' => Act::Subscribe,
            b'e' => Act::Unsubscribe,
            b'g' => Act::Aggregate,
            b'G' => Act::SeeAggregated,
            _ => Act::SeeStatus,
        }
    }
}

// What an act is given: the value is a status', or uRt in seconds.
#[derive(Clone, Copy)]
struct Given {
    time: u64,
    value: u32,
    link: u16,
    number: u16,
    byte: u8,
}

// Time 8 bytes, value 4, link and number 2 each, one more byte.
impl From<Case<'_>> for Given {
    fn from(case: Case<'_>) -> Given {
        let f = Fields::<17>::of(case.bytes);
        Given {
            time: f.wide(0),
            value: f.long(8),
            link: f.short(12),
            number: f.short(14),
            byte: f.byte(16),
        }
    }
}

// Whether an act changed anything (or the subscription is there), and whether it makes a record.
#[derive(Clone, Copy)]
struct Outcome {
    happened: bool,
    issues: bool,
}

const UNCHANGED: Outcome = Outcome {
    happened: false,
    issues: false,
};

impl Rules {
    fn begin(time: u64) -> Rules {
        Rules {
            alarm: Alarm::begin(time),
            status: Status::unknown(),
            subscription: Subscription::none(),
            aggregated: Aggregated::begin(time),
        }
    }

    fn set_alarm(&mut self, changed: alarm::Changed) -> Outcome {
        self.alarm = changed.alarm;
        Outcome {
            happened: changed.happened,
            issues: changed.records,
        }
    }

    fn on_value(&mut self, value: i32) -> Outcome {
        let set = self.status.set(value);
        self.status = set.status;
        Outcome {
            happened: set.changed,
            issues: self.subscription.on_value(set.changed),
        }
    }

    fn on_tick(&mut self, time: u64) -> Outcome {
        let before = self.subscription;
        let ticked = before.on_tick(time);
        self.subscription = ticked.subscription;
        Outcome {
            happened: 0 < before.state,
            issues: ticked.issues,
        }
    }

    fn set_subscription(&mut self, s: Subscription) -> Outcome {
        self.subscription = s;
        Outcome {
            happened: 0 < s.state,
            issues: false,
        }
    }

    fn set_aggregated(&mut self, byte: u8, time: u64) -> Outcome {
        let set = self.aggregated.set(byte, time);
        self.aggregated = set.aggregated;
        Outcome {
            happened: set.changed,
            issues: set.changed,
        }
    }

    fn act(&mut self, act: Act, g: Given) -> Outcome {
        match act {
            Act::Begin => {
                *self = Rules::begin(g.time);
                UNCHANGED
            }
            Act::Input => self.set_alarm(self.alarm.input(g.byte == 1, g.time)),
            Act::Order(order) => self.set_alarm(self.alarm.order(order, g.time)),
            Act::Value => self.on_value(number::signed_of(g.value)),
            Act::Tick => self.on_tick(g.time),
            Act::Subscribe => {
                self.set_subscription(Subscription::subscribe(g.value, g.byte % 2 == 1, g.time))
            }
            Act::Unsubscribe => self.set_subscription(Subscription::none()),
            Act::Aggregate => self.set_aggregated(g.byte, g.time),
            Act::SeeAlarm | Act::SeeStatus | Act::SeeAggregated => UNCHANGED,
        }
    }

    // The record that the act's part now has; the status is old by the byte's second bit.
    fn entry_of(&self, act: Act, g: Given) -> Entry {
        match act {
            Act::Input | Act::Order(_) | Act::SeeAlarm => self.alarm.issued(g.link, g.number),
            Act::Aggregate | Act::SeeAggregated => self.aggregated.issued(g.link),
            _ => self
                .status
                .issued(g.link, g.number, g.time, g.byte / 2 % 2 == 1),
        }
    }
}

fn put_bool(line: &mut Line<'_>, b: bool) -> fmt::Result {
    line.write_str(if b { "1 " } else { "0 " })
}

fn put_acted(line: &mut Line<'_>, outcome: Outcome, e: Entry) -> fmt::Result {
    let packed = entry::pack(e);
    put_bool(line, outcome.happened)?;
    put_bool(line, outcome.issues)?;
    write!(line, "{}", Hex(&packed.bytes))
}

fn main() {
    let mut rules = Rules::begin(0);
    run_feed::answer_each(&mut [0; 64], &mut [0; 64], |case, line| {
        let act = Act::from(case.kind);
        let g = Given::from(case);
        let outcome = rules.act(act, g);
        put_acted(line, outcome, rules.entry_of(act, g))
    });
}
