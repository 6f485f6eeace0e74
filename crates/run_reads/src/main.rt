// Reads packets case by case from standard input, and writes a line of what each says; tests/reads.py makes the packets, and the
// lines with a reader of its own.
#![tactic(auto)]

use identity::Identity;
use read_commands::{CommandEntry, CommandFields};
use read_head::{AlarmFields, Class, GotLabel, GotTime, Head, Kind, Order, Verdict};
use read_lists::{Asking, StatusEntry, StatusFields, VersionFields};
use read_versions::{Judged, Offer, Sites, Versions};
use run_feed::packet::Packet;
use run_feed::{Hex, Line};
use std::fmt;
use std::fmt::Write;

// Letters of other crates' enums, which can be given no Display here.
fn verdict_letter(v: Verdict) -> char {
    match v {
        Verdict::Good => 'G',
        Verdict::Missing => 'M',
        Verdict::Bad => 'B',
    }
}

fn kind_letter(k: Kind) -> char {
    match k {
        Kind::Version => 'V',
        Kind::Watchdog => 'W',
        Kind::Alarm => 'A',
        Kind::AggregatedStatusRequest => 'G',
        Kind::StatusRequest => 'R',
        Kind::StatusSubscribe => 'S',
        Kind::StatusUnsubscribe => 'U',
        Kind::CommandRequest => 'C',
        Kind::Unexpected => 'X',
    }
}

// Small where the acknowledgement is included.
fn form_letter(k: Kind, included: bool) -> char {
    if included {
        match k {
            Kind::StatusRequest => 'r',
            Kind::CommandRequest => 'c',
            _ => 'x',
        }
    } else {
        kind_letter(k)
    }
}

fn order_letter(o: Order) -> char {
    match o {
        Order::Request => 'Q',
        Order::Acknowledge => 'A',
        Order::Suspend => 'S',
        Order::Resume => 'R',
    }
}

// What we offer: 3.2, 3.1.5 and 3.1.4.
fn own_versions() -> Versions {
    let mut list = [0u32; 16];
    list[..3].copy_from_slice(&[0x030200, 0x030105, 0x030104]);
    Versions { count: 3, list }
}

fn own() -> Offer {
    let id = label::of(b"O+14439=481WA001");
    Offer {
        versions: own_versions(),
        sites: Sites {
            count: 1,
            list: [id; 16],
        },
        sxl: label::of(b"1.0.13"),
    }
}

fn put_judged(line: &mut Line<'_>, j: Judged) -> fmt::Result {
    match j {
        Judged::Chosen(n) => write!(line, "{n} "),
        Judged::RsmpVersion => line.write_str("R "),
        Judged::SiteId => line.write_str("I "),
        Judged::SxlVersion => line.write_str("X "),
    }
}

fn put_offer(line: &mut Line<'_>, o: &Offer) -> fmt::Result {
    write!(line, "{} ", o.versions.count)?;
    for version in o.versions.list.iter().take(o.versions.count) {
        write!(line, "{version} ")?;
    }
    write!(line, "{} ", o.sites.count)?;
    for site in o.sites.list.iter().take(o.sites.count) {
        run_feed::put_label(line, *site)?;
    }
    run_feed::put_label(line, o.sxl)?;
    put_judged(line, read_versions::judge(own(), *o))
}

// What is read of a packet of a kind: the verdict, and where it is good what `put` says.
fn put_verdict<F>(line: &mut Line<'_>, v: Verdict, put: F) -> fmt::Result
where
    F: FnOnce(&mut Line<'_>) -> fmt::Result,
    requires { F.IsAlwaysCallable put }
{
    write!(line, "{} ", verdict_letter(v))?;
    match v {
        Verdict::Good => put(line),
        Verdict::Missing => Ok(()),
        Verdict::Bad => Ok(()),
    }
}

fn put_version(line: &mut Line<'_>, f: &VersionFields) -> fmt::Result {
    put_verdict(line, f.verdict, |line| put_offer(line, &f.offer))
}

fn put_watchdog(line: &mut Line<'_>, t: GotTime) -> fmt::Result {
    put_verdict(
        line,
        t.verdict,
        |line| write!(line, "{} {} ", t.time, t.decimals),
    )
}

fn put_aggregated(line: &mut Line<'_>, l: GotLabel) -> fmt::Result {
    put_verdict(line, l.verdict, |line| run_feed::put_label(line, l.label))
}

fn put_order(line: &mut Line<'_>, f: &AlarmFields) -> fmt::Result {
    run_feed::put_label(line, f.component)?;
    run_feed::put_label(line, f.code)?;
    write!(line, "{} ", order_letter(f.order))
}

fn put_alarm(line: &mut Line<'_>, f: &AlarmFields) -> fmt::Result {
    put_verdict(line, f.verdict, |line| put_order(line, f))
}

fn put_entry(line: &mut Line<'_>, e: &StatusEntry) -> fmt::Result {
    run_feed::put_label(line, e.code)?;
    run_feed::put_label(line, e.name)?;
    let onchange = if e.onchange { 't' } else { 'f' };
    write!(line, "{} {onchange} ", e.seconds)
}

fn put_asked(line: &mut Line<'_>, f: &StatusFields) -> fmt::Result {
    run_feed::put_label(line, f.component)?;
    write!(line, "{} ", f.count)?;
    for entry in f.entries.iter().take(f.count) {
        put_entry(line, entry)?;
    }
    Ok(())
}

fn put_status(line: &mut Line<'_>, p: Packet<'_>, asking: Asking) -> fmt::Result {
    let f = read_lists::read_status(p.s, p.places, asking);
    put_verdict(line, f.verdict, |line| put_asked(line, &f))
}

fn put_command_entry(line: &mut Line<'_>, e: &CommandEntry) -> fmt::Result {
    run_feed::put_label(line, e.code)?;
    run_feed::put_label(line, e.name)?;
    write!(line, "{} ", e.value)
}

fn put_ordered(line: &mut Line<'_>, f: &CommandFields) -> fmt::Result {
    run_feed::put_label(line, f.component)?;
    write!(line, "{} ", f.count)?;
    for entry in f.entries.iter().take(f.count) {
        put_command_entry(line, entry)?;
    }
    Ok(())
}

fn put_command(line: &mut Line<'_>, f: &CommandFields) -> fmt::Result {
    put_verdict(line, f.verdict, |line| put_ordered(line, f))
}

fn put_fields(line: &mut Line<'_>, p: Packet<'_>, kind: Kind) -> fmt::Result {
    match kind {
        Kind::Version => put_version(line, &read_lists::read_version(p.s, p.places)),
        Kind::Watchdog => put_watchdog(line, read_head::read_watchdog(p.s, p.places)),
        Kind::Alarm => put_alarm(line, &read_head::read_alarm(p.s, p.places)),
        Kind::AggregatedStatusRequest => {
            put_aggregated(line, read_head::read_aggregated(p.s, p.places))
        }
        Kind::StatusRequest => put_status(line, p, Asking::Plain),
        Kind::StatusSubscribe => put_status(line, p, Asking::Full),
        Kind::StatusUnsubscribe => put_status(line, p, Asking::Plain),
        Kind::CommandRequest => put_command(line, &read_commands::read_command(p.s, p.places)),
        Kind::Unexpected => Ok(()),
    }
}

fn put_request(
    line: &mut Line<'_>,
    p: Packet<'_>,
    head: &Head,
    v: Verdict,
    kind: Kind,
) -> fmt::Result {
    let form = form_letter(kind, head.included);
    line.put_bytes(&head.received.bytes)?;
    write!(line, " {} {form} ", verdict_letter(v))?;
    match v {
        Verdict::Good => put_fields(line, p, kind),
        Verdict::Missing => Ok(()),
        Verdict::Bad => Ok(()),
    }
}

fn put_answer(line: &mut Line<'_>, letter: char, id: &Identity) -> fmt::Result {
    write!(line, "{letter} {}", Hex(&id.bytes))
}

// A dash of what is ignored, the awaited identity of an answer, the received one of a request with what it says.
fn say(line: &mut Line<'_>, p: Packet<'_>) -> fmt::Result {
    let head = read_head::read_head(p.s, p.places, p.is_packet);
    match head.class {
        Class::Ignored => line.write_str("-"),
        Class::Acked => put_answer(line, 'A', &head.identity),
        Class::NotAcked => put_answer(line, 'N', &head.identity),
        Class::Asked(v, kind) => put_request(line, p, &head, v, kind),
    }
}

fn main() {
    run_feed::answer_each(&mut [0; 8192], &mut [0; 4096], |case, line| {
        say(line, Packet::judge(case.body(), &mut [0; 32]))
    });
}
