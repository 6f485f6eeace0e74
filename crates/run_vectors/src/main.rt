// Runs the leaves on cases from standard input and writes a line for each; tests/vectors.py makes the cases and the lines.
#![tactic(auto)]

use entry::Entry;
use identity::Identity;
use run_feed::{Case, Fields, Hex, Line};
use std::fmt;
use std::fmt::Write;

fn refused(line: &mut Line<'_>) -> fmt::Result {
    line.write_str("-")
}

fn time_written(body: &[u8], line: &mut Line<'_>) -> fmt::Result {
    line.put(|out, at| calendar::put_time(out, at, run_feed::decimal(body)))
        .or_else(|_| refused(line))
}

fn time_read(body: &[u8], line: &mut Line<'_>) -> fmt::Result {
    match calendar::read_time(body) {
        calendar::Time::Is(ms, decimals) => put_numbers(&[ms, decimals as u64], line),
        calendar::Time::No => refused(line),
    }
}

fn identity_in(body: &[u8]) -> Identity {
    Identity {
        bytes: run_feed::unhex(body),
    }
}

fn identity_read(body: &[u8], line: &mut Line<'_>) -> fmt::Result {
    let r = identity::read_identity(body);
    if r.found {
        write!(line, "{}", Hex(&r.id.bytes))
    } else {
        refused(line)
    }
}

fn identity_written(id: Identity, line: &mut Line<'_>) -> fmt::Result {
    let text = identity::identity_text(id);
    line.put_bytes(&text)
}

fn put_signed(v: i32, line: &mut Line<'_>) -> fmt::Result {
    line.put(|out, at| number::put_i32(out, at, v))
}

fn signed_read(body: &[u8], line: &mut Line<'_>) -> fmt::Result {
    match number::read_i32(body) {
        number::Int::Is(v) => {
            put_signed(v, line)?;
            write!(line, " {}", Hex(&number::four_of(v).bytes))
        }
        number::Int::No => refused(line),
    }
}

fn signed_written(body: &[u8], line: &mut Line<'_>) -> fmt::Result {
    let bytes = run_feed::unhex(body);
    put_signed(number::signed_in(number::Four { bytes }), line)
}

fn put_number(n: u64, line: &mut Line<'_>) -> fmt::Result {
    line.put(|out, at| number::put_decimal(out, at, n))
}

// Each number, with a space before all but the first.
fn put_numbers(numbers: &[u64], line: &mut Line<'_>) -> fmt::Result {
    for (i, n) in numbers.iter().enumerate() {
        if 0 < i {
            line.write_str(" ")?;
        }
        put_number(*n, line)?;
    }
    Ok(())
}

fn number_read(body: &[u8], limit: u32, line: &mut Line<'_>) -> fmt::Result {
    match number::read_decimal(body, limit) {
        number::Number::Is(n) => put_number(n as u64, line),
        number::Number::No => refused(line),
    }
}

fn label_judged(body: &[u8], line: &mut Line<'_>) -> fmt::Result {
    line.write_str(if number::is_label(body) { "1" } else { "0" })
}

fn put_entry(e: Entry, line: &mut Line<'_>) -> fmt::Result {
    let numbers = [
        u64::from(e.link),
        u64::from(e.kind),
        u64::from(e.item),
        u64::from(e.flags),
        e.time,
        u64::from(e.value),
        u64::from(e.sequence),
    ];
    put_numbers(&numbers, line)
}

fn record_read(body: &[u8], line: &mut Line<'_>) -> fmt::Result {
    let bytes = run_feed::unhex(body);
    match entry::unpack(entry::Packed { bytes }) {
        entry::Unpacked::Accepted(e) => put_entry(e, line),
        entry::Unpacked::Refused(r) => put_number(u64::from(answer::refusal_number(r)), line),
    }
}

fn record_written(body: &[u8], line: &mut Line<'_>) -> fmt::Result {
    let p = entry::pack(Fields::<40>::of(body).entry());
    write!(line, "{}", Hex(&p.bytes))
}

fn type_found(body: &[u8], line: &mut Line<'_>) -> fmt::Result {
    match names::find_type(body) {
        names::Found::At(i) => put_number(i as u64, line),
        names::Found::Nothing => refused(line),
    }
}

// Name k of the table whose first name is name `first`.
fn name_written(body: &[u8], first: usize, line: &mut Line<'_>) -> fmt::Result {
    let k = (run_feed::decimal(body) % 100) as usize;
    line.put(|out, at| names::put(out, at, first % 100 + k))
}

// The letter of a case's kind is read here alone, so no enum stands between it and what is run.
fn answered(case: Case<'_>, line: &mut Line<'_>) -> fmt::Result {
    let body = case.body();
    match case.kind {
        b'd' => signed_read(body, line),
        b'D' => signed_written(body, line),
        b'p' => number_read(body, 255, line),
        b's' => number_read(body, 86400, line),
        b'l' => label_judged(body, line),
        b't' => time_written(body, line),
        b'T' => time_read(body, line),
        b'i' => identity_read(body, line),
        b'I' => identity_written(identity_in(body), line),
        b'v' => identity_written(identity::version4(identity_in(body)), line),
        b'r' => record_read(body, line),
        b'R' => record_written(body, line),
        b'Y' => type_found(body, line),
        b'y' => name_written(body, names::types::VERSION, line),
        b'z' => name_written(body, names::reasons::MISSING_ELEMENT, line),
        _ => refused(line),
    }
}

fn main() {
    run_feed::answer_each(&mut [0; 256], &mut [0; 256], answered);
}
