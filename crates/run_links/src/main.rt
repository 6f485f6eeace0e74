// Runs acts on a link, case by case from standard input, and writes a line for each; tests/links.py makes the cases and the
// lines from a model of its own.
#![tactic(auto)]

use awaited::{Found, Purpose};
use identity::Identity;
use link::{Due, Link, Phase, Role};
use run_feed::{Case, Fields, Line};
use std::fmt;
use std::fmt::Write;

// What an act is given: its own identity, time and sequence number or version, and what is asked after it.
#[derive(Clone, Copy)]
struct Given {
    id: Identity,
    time: u64,
    major: u32,
    minor: u32,
    patch: u32,
    sequence: u32,
    period: u32,
    alarms: u32,
    role: Role,
    unsent: bool,
}

fn identity_in(f: &Fields<40>) -> Identity {
    let mut bytes = [0; 16];
    bytes.copy_from_slice(&f.bytes[..16]);
    Identity { bytes }
}

// Identity 16 bytes, or three numbers of 4; time 8; sequence number, period, alarms 4 each; primary, unsent 1 each.
impl From<Case<'_>> for Given {
    fn from(case: Case<'_>) -> Given {
        let f = Fields::<40>::of(case.bytes);
        Given {
            id: identity_in(&f),
            time: f.wide(16),
            major: f.long(0),
            minor: f.long(4),
            patch: f.long(8),
            sequence: f.long(24),
            period: f.long(28),
            alarms: f.long(32),
            role: if f.is_one(36) {
                Role::Primary
            } else {
                Role::Secondary
            },
            unsent: f.is_one(37),
        }
    }
}

// What the letter of a case's kind does: it is read here, and where an answer says whether it acknowledges.
fn acted(kind: u8, g: Given, link: Link) -> Link {
    match kind {
        b'0' => Link::closed(),
        b'c' => link.connect(),
        b'V' => link.version_accepted(g.major, g.minor, g.patch),
        b'W' => link.watchdog_taken(),
        b'y' => link.answered(g.id, true).link,
        b'n' => link.answered(g.id, false).link,
        b'v' => link.version_out(g.id, g.time),
        b'w' => link.watchdog_out(g.id, g.time),
        b'r' => link.entry_out(g.id, g.time, g.sequence),
        b'o' => link.other_out(g.id, g.time),
        b'g' => link.aggregated_passed(),
        b'a' => link.alarm_passed(),
        _ => link,
    }
}

// Numbers of other crates' enums, which can be given no Display or From here.
fn phase_number(p: Phase) -> u64 {
    match p {
        Phase::Down => 0,
        Phase::Greeting => 1,
        Phase::Beating => 2,
        Phase::Up => 3,
    }
}

fn due_number(d: Due) -> u64 {
    match d {
        Due::Nothing => 0,
        Due::Version => 1,
        Due::Watchdog => 2,
        Due::Aggregated => 3,
        Due::Entry => 4,
        Due::Alarm(n) => 5 + (n as u64),
    }
}

fn purpose_number(p: Purpose) -> u64 {
    match p {
        Purpose::Version => 1,
        Purpose::Watchdog => 2,
        Purpose::Other => 3,
        Purpose::Entry(n) => 4 + (n as u64),
    }
}

fn found_number(f: Found) -> u64 {
    match f {
        Found::Nothing => 0,
        Found::For(p) => purpose_number(p),
    }
}

fn put_number(line: &mut Line<'_>, n: u64) -> fmt::Result {
    line.put(|out, at| number::put_decimal(out, at, n))?;
    line.write_str(" ")
}

fn put_bool(line: &mut Line<'_>, b: bool) -> fmt::Result {
    line.write_str(if b { "1 " } else { "0 " })
}

// The phase, how many are awaited, whether that is 8 or more, and 16.
fn put_phase(line: &mut Line<'_>, link: Link) -> fmt::Result {
    let n = link.awaited.how_many();
    put_number(line, phase_number(link.phase()))?;
    put_number(line, n as u64)?;
    put_bool(line, link.crowded())?;
    put_bool(line, 16 <= n)
}

fn put_version(line: &mut Line<'_>, link: Link) -> fmt::Result {
    put_number(line, u64::from(link.major))?;
    put_number(line, u64::from(link.minor))?;
    put_number(line, u64::from(link.patch))
}

// The link after an act: also what is late and due at the given time, the chosen version, and whether theirs is to be judged.
fn put_link(line: &mut Line<'_>, g: Given, link: Link) -> fmt::Result {
    let due = link.due(g.time, g.period, g.role, g.alarms, g.unsent);
    put_phase(line, link)?;
    put_bool(line, link.late(g.time))?;
    put_number(line, due_number(due))?;
    put_version(line, link)?;
    put_bool(line, link.may_judge_version())
}

// The link before an act: what an answer to the identity is for, and whether it closes.
fn put_answer(line: &mut Line<'_>, kind: u8, g: Given, link: Link) -> fmt::Result {
    let a = link.answered(g.id, kind == b'y');
    put_number(line, found_number(a.found))?;
    put_bool(line, a.closes)
}

fn main() {
    let mut link = Link::closed();
    run_feed::answer_each(&mut [0; 128], &mut [0; 256], |case, line| {
        let g = Given::from(case);
        let before = link;
        link = acted(case.kind, g, before);
        put_link(line, g, link)?;
        put_answer(line, case.kind, g, before)
    });
}
