// A line of fields, RFC 4180: where each of them stands, up to twelve, and where the line ends.
#![tactic(auto)]

ghost use Rattle.std.specs.Prelude.{◌≡◌, false, ℕ, ◌+◌, ◌≤◌, ◌<◌, eqb, length, get_or, drop};
ghost use Rattle.csv_field.specs.Marks.{is_break, is_stop, plain_run, quoted_run, line_run, behind_break, breaks, is_ended};
ghost use Rattle.csv_field.specs.Split.{plain_by, quoted_by, field_of, split};
ghost use Rattle.csv_field.specs.Places.{Takes, Splits, noted};

// How many fields are noted.
pub const MOST: usize = 12;

// A field's text as it stands there, and the place behind the field.
#[derive(Clone, Copy)]
pub struct Field<'a> {
    pub text: &'a [u8],
    pub next: usize,
}

// The texts of a line's fields. Behind the twelfth no more are noted; 13 counts all of them.
#[derive(Clone, Copy)]
pub struct Notes<'a> {
    pub count: usize,
    pub texts: [&'a [u8]; 12],
}

// A line's texts, where its quotes are good, and the place behind it.
#[derive(Clone, Copy)]
pub struct Line<'a> {
    pub notes: Option<Notes<'a>>,
    pub next: usize,
}

// Whether this byte stands there.
fn is_at(s: &[u8], at: usize, b: u8) -> bool
    requires { 0 < b }
    ensures { result ≡ eqb (get_or (drop at s.now) 0 0) b }
{
    at < s.len() && s[at] == b
}

// Whether CRLF stands there.
fn is_break(s: &[u8], at: usize) -> bool
    ensures { result ≡ is_break (drop at s.now) }
{
    if s.len() <= at {
        return false;
    }
    if s[at] != b'\r' {
        return false;
    }
    if s.len() - at < 2 {
        return false;
    }
    s[at + 1] == b'\n'
}

fn is_stop(s: &[u8], at: usize) -> bool
    ensures { result ≡ is_stop (drop at s.now) }
{
    s.len() <= at || is_at(s, at, b',') || is_break(s, at)
}

fn plain_end(s: &[u8], at: usize) -> usize
    requires { at ≤ length s.now }
    ensures { result ≡ at + plain_run (drop at s.now) }
{
    for i in at..s.len() {
        if is_at(s, i, b'"') || is_stop(s, i) {
            return i;
        }
    }
    s.len()
}

// The place of the closing quote.
fn quoted_end(s: &[u8], at: usize) -> usize
    ensures { result ≡ at + quoted_run false (drop at s.now) }
{
    // an index: of two quotes in a row both are passed
    let mut i = at;
    while i < s.len() {
        if is_at(s, i, b'"') {
            if is_at(s, i + 1, b'"') {
                i += 2;
                continue;
            }
            return i;
        }
        i += 1;
    }
    i
}

// The place behind the first CRLF.
fn line_end(s: &[u8], at: usize) -> usize
    requires { at ≤ length s.now }
    ensures { result ≡ at + line_run (drop at s.now) }
{
    for i in at..s.len() {
        if is_break(s, i) {
            return i + 2;
        }
    }
    s.len()
}

fn plain(s: &[u8], at: usize) -> Result<Field, usize>
    requires { at ≤ length s.now }
    ensures { Takes s.now at (plain_by (plain_run (drop at s.now)) (drop at s.now)) result }
{
    let end = plain_end(s, at);
    if is_at(s, end, b'"') {
        return Err(end);
    }
    Ok(Field {
        text: &s[at..end],
        next: end,
    })
}

fn quoted(s: &[u8], at: usize) -> Result<Field, usize>
    requires { at ≤ length s.now }
    ensures { Takes s.now at (quoted_by (quoted_run false (drop at s.now)) (drop at s.now)) result }
{
    let end = quoted_end(s, at);
    if s.len() <= end {
        return Err(s.len());
    }
    if is_stop(s, end + 1) {
        return Ok(Field {
            text: &s[at..end],
            next: end + 1,
        });
    }
    Err(end + 1)
}

// The field that begins at `at`, or the place of a fault.
fn take_field(s: &[u8], at: usize) -> Result<Field, usize>
    requires { at ≤ length s.now }
    ensures { Takes s.now at (field_of (drop at s.now)) result }
{
    if is_at(s, at, b'"') {
        return quoted(s, at + 1);
    }
    plain(s, at)
}

fn note<'a>(n: &mut Notes<'a>, text: &'a [u8])
    ensures { n.new ≡ noted n.old text.entry }
{
    if n.count < MOST {
        n.texts[n.count] = text;
        n.count += 1;
    } else {
        n.count = 13;
    }
}

// The place behind a line that ends at `at`.
fn behind(s: &[u8], at: usize) -> usize
    requires { at ≤ length s.now }
    ensures { result ≡ behind_break s.now at }
{
    if is_break(s, at) { at + 2 } else { at }
}

// The line that begins at `at`.
pub fn take_line(s: &[u8], at: usize) -> Line
    requires { at ≤ length s.now }
    ensures { Splits s.now at (split (drop at s.now)) result }
{
    let mut notes = Notes {
        count: 0,
        texts: [b"" as &[u8]; 12],
    };
    let mut i = at;
    loop {
        match take_field(s, i) {
            Ok(f) => {
                note(&mut notes, f.text);
                if is_at(s, f.next, b',') {
                    i = f.next + 1;
                } else {
                    let next = behind(s, f.next);
                    return Line {
                        notes: Some(notes),
                        next,
                    };
                }
            }
            Err(fault) => {
                return Line {
                    notes: None,
                    next: line_end(s, fault),
                }
            }
        }
    }
}

// How many CRLF stand in t.
pub fn count_breaks(t: &[u8]) -> usize
    ensures { result ≡ breaks t.now }
{
    let mut n = 0;
    for i in 0..t.len() {
        if is_break(t, i) {
            n += 1;
        }
    }
    n
}

// Whether CRLF ends t.
pub fn is_ended(t: &[u8]) -> bool
    ensures { result ≡ is_ended t.now }
{
    2 <= t.len() && is_break(t, t.len() - 2)
}
