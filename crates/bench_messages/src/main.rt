// Reads each packet from standard input (kind r) or writes a message (kind w, by the letter in its body) as often as the first
// digit of the body says, and writes a number that depends on every turn. bench/messages.py measures it.
#![tactic(auto)]

use identity::Identity;
use label::Label;
use names::reasons;
use read_head::{Class, Kind};
use read_lists::Asking;
use run_feed::Case;
use run_feed::packet::Packet;
use std::fmt::Write;
use write_message::{AlarmState, Value};

fn order_number(o: read_head::Order) -> u64 {
    match o {
        read_head::Order::Request => 1,
        read_head::Order::Acknowledge => 2,
        read_head::Order::Suspend => 3,
        read_head::Order::Resume => 4,
    }
}

fn said_by(p: Packet<'_>, k: Kind) -> u64 {
    let entries_said = |asking| read_lists::read_status(p.s, p.places, asking).count as u64;
    match k {
        Kind::Version => read_lists::read_version(p.s, p.places).offer.versions.count as u64,
        Kind::Watchdog => read_head::read_watchdog(p.s, p.places).time % 1000,
        Kind::Alarm => order_number(read_head::read_alarm(p.s, p.places).order),
        Kind::AggregatedStatusRequest => {
            read_head::read_aggregated(p.s, p.places).label.length as u64
        }
        Kind::StatusRequest => entries_said(Asking::Plain),
        Kind::StatusSubscribe => entries_said(Asking::Full),
        Kind::StatusUnsubscribe => entries_said(Asking::Plain),
        Kind::CommandRequest => read_commands::read_command(p.s, p.places).count as u64,
        Kind::Unexpected => 0,
    }
}

fn judged(p: Packet<'_>) -> u64 {
    match read_head::read_head(p.s, p.places, p.is_packet).class {
        Class::Ignored => 0,
        Class::Acked => 1,
        Class::NotAcked => 2,
        Class::Asked(_, k) => said_by(p, k),
    }
}

fn id_of(n: u32) -> Identity {
    Identity {
        bytes: [(n % 256) as u8; 16],
    }
}

fn some_label() -> Label {
    label::of(b"AA+BBCCC=DDDEE001")
}

fn state_of(n: u32) -> AlarmState {
    AlarmState {
        time: 1254398371571 + (n as u64),
        event: 0,
        category: 1,
        priority: 2,
        acknowledged: false,
        active: true,
        suspended: false,
    }
}

fn greet(out: &mut [u8], message: u8, n: u32) -> usize {
    match message {
        b'V' => write_message::greeting::version(
            out,
            0,
            id_of(n),
            some_label(),
            label::of(b"1.0.13"),
        ),
        b'W' => write_message::greeting::watchdog(out, 0, id_of(n), 1254398371571 + (n as u64)),
        b'K' => write_message::answers::ack(out, 0, b"d6d97f8b-e9db-4572-8084-70b55e312584"),
        _ => write_message::answers::not_ack(
            out,
            0,
            b"d6d97f8b-e9db-4572-8084-70b55e312584",
            reasons::MISSING_ELEMENT + (n % 12) as usize,
        ),
    }
}

fn write_once(out: &mut [u8], message: u8, n: u32) -> usize {
    match message {
        b'A' => write_report::alarms::alarm(
            out,
            0,
            id_of(n),
            some_label(),
            label::of(b"A0001"),
            state_of(n),
        ),
        b'G' => write_report::aggregate::aggregated(
            out,
            0,
            id_of(n),
            some_label(),
            1254398371571,
            (n % 256) as u8,
        ),
        b'U' => write_report::status::update(
            out,
            0,
            id_of(n),
            some_label(),
            1254398371571,
            label::of(b"S0001"),
            label::of(b"release"),
            Value::Recent((n % 1000) as i32),
        ),
        _ => greet(out, message, n),
    }
}

fn sum(total: u64, more: u64) -> u64 {
    (total % 1000000007 + more % 1000000007) % 1000000007
}

// The sum of what each turn gives; turns are counted down to 1.
fn total<F: FnMut(u32) -> u64>(often: u32, mut turn: F) -> u64
    requires { F.IsAlwaysCallable turn }
{
    let mut total = 0;
    for n in (1..=often).rev() {
        total = sum(total, turn(n));
    }
    total
}

// The letter of a case's kind is read here alone, so no enum stands between it and what is measured.
fn measured(case: Case<'_>) -> u64 {
    let [digit, rest @ ..] = case.body() else {
        return 0;
    };
    let Some(message) = rest.first() else {
        return 0;
    };
    let often = run_feed::times(*digit);
    if case.kind == b'r' {
        total(often, |_| judged(Packet::judge(rest, &mut [0; 32])))
    } else {
        let mut out = [0u8; 4096];
        total(often, |n| write_once(&mut out, *message, n) as u64)
    }
}

fn main() {
    run_feed::answer_each(&mut [0; 8192], &mut [0; 64], |case, line| {
        write!(line, "{}", measured(case))
    });
}
