// Runs acts on the pool's words, case by case from standard input, and writes a line for each; tests/pools.py makes the cases and the
// lines from a model of its own.
#![tactic(auto)]

use pool::Sought;
use run_feed::{Fields, Hex, Line};
use std::fmt;
use std::fmt::Write;
use store_pool::{change, issue, read};

// Eight owners' counts of lost records, and the places of the records.
type Words = [u64; 520];

// Without a record, and nothing lost.
const EMPTY: Words = [0; 520];

// The letter of a case's kind says what is done and what is then said, each in one match: no enum stands between.
fn act(kind: u8, f: Fields<40>, w: &mut Words) {
    match kind {
        b'0' => *w = EMPTY,
        b'i' => issue::issue(w, f.entry()),
        b's' => change::settle(w, f.short(0), f.long(2)),
        b'm' => change::mark_sent(w, f.short(0), f.long(2)),
        b'u' => change::unmark(w, f.short(0)),
        b'c' => change::clear(w, f.short(0)),
        _ => {}
    }
}

fn put_counts(line: &mut Line<'_>, w: &Words) -> fmt::Result {
    for link in 0..8 {
        write!(line, "{} {} ", read::held(w, link), read::lost(w, link))?;
    }
    Ok(())
}

fn put_sought(line: &mut Line<'_>, s: Sought) -> fmt::Result {
    match s {
        Sought::Found(place) => {
            let packed = entry::pack(place.entry);
            write!(line, "{} {}", place.mark, Hex(&packed.bytes))
        }
        Sought::Nothing => line.write_str("-"),
    }
}

fn say(kind: u8, f: Fields<40>, w: &Words, line: &mut Line<'_>) -> fmt::Result {
    match kind {
        b'o' => put_sought(line, read::oldest_unsent(w, f.short(0))),
        b'a' => put_sought(line, read::newest_alarm(w, f.short(0), f.short(2))),
        b'k' => put_sought(line, read::ranked(w, f.short(0), f.short(2) as usize)),
        _ => put_counts(line, w),
    }
}

fn main() {
    let mut w = EMPTY;
    run_feed::answer_each(&mut [0; 64], &mut [0; 256], |case, line| {
        let f = Fields::of(case.bytes);
        act(case.kind, f, &mut w);
        say(case.kind, f, &w, line)
    });
}
