// Writes the message that each case from standard input gives the fields of, its form feed behind it, and a line feed;
// tests/writes.py makes the cases, and the messages with Python's json.
#![tactic(auto)]

ghost use Rattle.std.specs.Prelude.{◌≡◌};
ghost use Rattle.write_message.specs.declared.Told.TheVariants.{Update as update_of};

use identity::Identity;
use label::Label;
use run_feed::{Case, Fields, Line};
use std::fmt;
use write_message::{AlarmState, Told, Value};

// Where the labels begin: before them stand the identity, a time of 8 bytes, and six bytes by type.
const LABELS: usize = 30;

// Behind every case's end.
const FAR: usize = 4096;

// What a message is written from.
#[derive(Clone, Copy)]
struct Given {
    id: Identity,
    fields: Fields<1280>,
}

impl Given {
    fn of(body: &[u8]) -> Given {
        Given {
            id: Identity {
                bytes: run_feed::unhex(body),
            },
            fields: Fields::of(body),
        }
    }

    fn time(&self) -> u64 {
        self.fields.wide(16)
    }

    fn state(&self) -> AlarmState {
        let f = self.fields;
        AlarmState {
            time: self.time(),
            event: f.byte(24) as u16,
            category: f.byte(25),
            priority: f.byte(26),
            acknowledged: f.is_one(27),
            active: f.is_one(28),
            suspended: f.is_one(29),
        }
    }

    fn texts(&self) -> Texts<'_> {
        Texts {
            fields: &self.fields,
            next: LABELS,
        }
    }
}

#[derive(Clone, Copy)]
struct Status {
    code: Label,
    name: Label,
    value: Value,
}

// The labels and statuses of a case, from a place on.
#[derive(Drop)]
struct Texts<'a> {
    fields: &'a Fields<1280>,
    next: usize,
}

impl Texts<'_> {
    fn label(&mut self) -> Label {
        let read = label::read(&self.fields.bytes, self.next);
        self.next = read.next;
        read.label
    }

    // A value after the byte that says what it is.
    fn value(&mut self) -> Value {
        let at = self.next;
        if FAR <= at {
            return Value::Undefined;
        }
        self.next = at + 5;
        let v = number::signed_of(self.fields.long(at + 1));
        match self.fields.byte(at) {
            0 => Value::Recent(v),
            1 => Value::Unknown,
            3 => Value::Old(v),
            _ => Value::Undefined,
        }
    }

    fn status(&mut self) -> Status {
        let value = self.value();
        let code = self.label();
        let name = self.label();
        Status { code, name, value }
    }
}

fn put_version(line: &mut Line<'_>, g: &Given) -> fmt::Result {
    let mut texts = g.texts();
    let site = texts.label();
    let sxl = texts.label();
    line.put(|out, at| write_message::greeting::version(out, at, g.id, site, sxl))
}

fn put_watchdog(line: &mut Line<'_>, g: &Given) -> fmt::Result {
    line.put(|out, at| write_message::greeting::watchdog(out, at, g.id, g.time()))
}

fn put_alarm(line: &mut Line<'_>, g: &Given) -> fmt::Result {
    let mut texts = g.texts();
    let component = texts.label();
    let code = texts.label();
    line.put(|out, at| write_report::alarms::alarm(out, at, g.id, component, code, g.state()))
}

fn put_aggregated(line: &mut Line<'_>, g: &Given) -> fmt::Result {
    let component = g.texts().label();
    line.put(|out, at| {
        write_report::aggregate::aggregated(out, at, g.id, component, g.time(), g.fields.byte(24))
    })
}

// A StatusUpdate with one entry.
fn put_update(line: &mut Line<'_>, g: &Given) -> fmt::Result {
    let mut texts = g.texts();
    let component = texts.label();
    let e = texts.status();
    line.put(|out, at| {
        write_report::status::update(out, at, g.id, component, g.time(), e.code, e.name, e.value)
    })
}

fn put_entries(line: &mut Line<'_>, kind: Told, texts: &mut Texts<'_>, count: u8) -> fmt::Result {
    for i in 0..count {
        let e = texts.status();
        line.put(|out, at| {
            write_report::status::entry(out, at, kind, i == 0, e.code, e.name, e.value)
        })?;
    }
    line.put(|out, at| write_report::status::finish(out, at))
}

fn put_statuses(line: &mut Line<'_>, kind: Told, g: &Given) -> fmt::Result {
    let mut texts = g.texts();
    let component = texts.label();
    line.put(|out, at| write_report::status::begin(out, at, kind, g.id, component, g.time()))?;
    put_entries(line, kind, &mut texts, g.fields.byte(24))
}

// The reason's number is in two decimal digits, the received identity behind it.
fn put_not_ack(line: &mut Line<'_>, body: &[u8]) -> fmt::Result {
    let Some((digits, received)) = body.split_at_checked(2) else {
        return Ok(());
    };
    let reason = run_feed::decimal(digits) as usize;
    line.put(|out, at| write_message::answers::not_ack(out, at, received, reason))
}

// A response that carries its acknowledgement: the received identity stands before the fields.
fn put_included(line: &mut Line<'_>, kind: Told, body: &[u8]) -> fmt::Result
    requires { kind ≡ update_of → ⊥ }
{
    let Some((received, fields)) = body.split_at_checked(36) else {
        return Ok(());
    };
    let g = Given::of(fields);
    let mut texts = g.texts();
    let component = texts.label();
    line.put(|out, at| {
        write_report::status::begin_included(out, at, kind, received, component, g.time())
    })?;
    put_entries(line, kind, &mut texts, g.fields.byte(24))
}

fn put_own(line: &mut Line<'_>, kind: u8, g: &Given) -> fmt::Result {
    match kind {
        b'V' => put_version(line, g),
        b'W' => put_watchdog(line, g),
        b'A' => put_alarm(line, g),
        b'G' => put_aggregated(line, g),
        b'R' => put_statuses(line, Told::Response, g),
        b'U' => put_statuses(line, Told::Update, g),
        b'C' => put_statuses(line, Told::Command, g),
        _ => put_update(line, g),
    }
}

// The letter of a case's kind is read here and in `put_own` alone, so no enum stands between it and what is written.
fn answered(case: Case<'_>, line: &mut Line<'_>) -> fmt::Result {
    let body = case.body();
    match case.kind {
        b'K' => line.put(|out, at| write_message::answers::ack(out, at, body)),
        b'N' => put_not_ack(line, body),
        b'r' => put_included(line, Told::Response, body),
        b'c' => put_included(line, Told::Command, body),
        kind => put_own(line, kind, &Given::of(body)),
    }
}

fn main() {
    run_feed::answer_each(&mut [0; 2600], &mut [0; 4096], answered);
}
