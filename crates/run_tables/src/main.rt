// Reads site tables and looks things up in the last one, as it is stored, case by case from standard input, and writes a line for each;
// tests/tables.py makes the cases and the lines with a reader of its own.
#![tactic(auto)]

use run_feed::{Case, Line};
use std::fmt;
use std::fmt::Write;
use table_item::{Found, Item};
use table_whole::{SiteTable, TableRead, Verdict};

fn put_called(line: &mut Line<'_>, row: &Item) -> fmt::Result {
    run_feed::put_label(line, row.code)?;
    run_feed::put_label(line, row.name)
}

// A row, with the name that an alarm lacks and the priority and category that a status lacks.
fn put_row(line: &mut Line<'_>, row: &Item) -> fmt::Result {
    write!(line, "{} {} {} ", row.component, row.priority, row.category)?;
    put_called(line, row)
}

// A command, with its lowest and its highest value as they stand in the bits.
fn put_command(line: &mut Line<'_>, row: &Item) -> fmt::Result {
    write!(line, "{} ", row.component)?;
    put_called(line, row)?;
    write!(line, "{} {} ", row.lowest, row.highest)
}

fn put_table(line: &mut Line<'_>, t: &SiteTable) -> fmt::Result {
    write!(
        line,
        "{} {} {} ",
        t.componentcount, t.alarmcount, t.statuscount
    )?;
    run_feed::put_label(line, t.site)?;
    run_feed::put_label(line, t.sxl)?;
    for component in t.components.iter().take(t.componentcount as usize) {
        run_feed::put_label(line, *component)?;
    }
    for row in t.alarms.iter().take(t.alarmcount as usize) {
        put_row(line, row)?;
    }
    for row in t.statuses.iter().take(t.statuscount as usize) {
        put_row(line, row)?;
    }
    for row in t.commands.iter().take(t.commandcount as usize) {
        put_command(line, row)?;
    }
    Ok(())
}

fn put_read(line: &mut Line<'_>, read: &TableRead) -> fmt::Result {
    match read.verdict {
        Verdict::Accepted => put_table(line, &read.table),
        Verdict::Refused(r) => write!(line, "{}", answer::refusal_number(r)),
    }
}

fn put_found(line: &mut Line<'_>, found: Found) -> fmt::Result {
    match found {
        Found::At(i) => write!(line, "{i}"),
        Found::Nothing => line.write_str("-"),
    }
}

// The body is a component's number in a byte, and a code.
fn alarm_in(t: &[u8; 6178], body: &[u8]) -> Found {
    let Some((component, code)) = body.split_first() else {
        return Found::Nothing;
    };
    store_table::find_alarm(t, *component, code)
}

// The body is a component's number in a byte, the length of a code in a byte, that code, and a name.
fn status_in(t: &[u8; 6178], body: &[u8]) -> Found {
    let [component, size, rest @ ..] = body else {
        return Found::Nothing;
    };
    let Some((code, name)) = rest.split_at_checked(usize::from(*size)) else {
        return Found::Nothing;
    };
    store_table::find_status(t, *component, code, name)
}

// The letter of a case's kind says here what is looked up, and in `main` whether a table is read: no enum stands between.
fn say(line: &mut Line<'_>, case: Case<'_>, read: &TableRead) -> fmt::Result {
    let mut t = [0u8; 6178];
    store_table::put(&mut t, read.table);
    match case.kind {
        b'c' => put_found(line, store_table::find_component(&t, case.body())),
        b'a' => put_found(line, alarm_in(&t, case.body())),
        b's' => put_found(line, status_in(&t, case.body())),
        _ => put_read(line, read),
    }
}

fn main() {
    let mut read = table_whole::read(b"");
    run_feed::answer_each(&mut [0; 8192], &mut [0; 12288], |case, line| {
        if case.kind == b't' {
            read = table_whole::read(case.body());
        }
        say(line, case, &read)
    });
}
