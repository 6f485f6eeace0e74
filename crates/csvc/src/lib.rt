// What C and Rust call for records as lines of comma-separated fields. All memory is lent; each call answers a number, 0 where it is done.
#![tactic(auto)]

ghost use Rattle.std.specs.Prelude.{◌≡◌, ℕ, ◌≤◌, length};
ghost use Rattle.csvc.specs.Calls.{added, line_behind, number_for, bytes_for, Heads, Writes, ReadsOn, ReadsFirst, Reads};

use csv_entry::Reason;
use entry::Entry;

// How many bytes the header needs.
const HEADER: usize = 73;

// How many bytes were written, and the number.
#[repr(C)]
#[derive(Clone, Copy)]
pub struct Told {
    pub written: u64,
    pub number: u64,
}

// What a line comes to: 0 a record, 1 to 6 the reason against it, 7 the end; the record's bytes, or zeros; the next place and its line; the line's own number.
#[repr(C)]
#[derive(Clone, Copy)]
pub struct Read {
    pub next: u64,
    pub line: u64,
    pub own: u64,
    pub answer: u64,
    pub bytes: [u8; 16],
}

// The header, from the start of out.
pub fn rsmp_csv_header(out: &mut [u8]) -> Told
    ensures { Heads out.old out.new result }
{
    if out.len() < HEADER {
        return Told {
            written: 0,
            number: 4,
        };
    }
    let n = csv_entry::write::put_header(out, 0);
    Told {
        written: n as u64,
        number: 0,
    }
}

fn sixteen(given: &[u8]) -> entry::Packed
    requires { length given.now ≡ 16 }
    ensures { result.bytes ≡ given.now }
{
    let mut bytes = [0u8; 16];
    bytes.copy_from_slice(given);
    entry::Packed { bytes }
}

fn write_line(bytes: &[u8], out: &mut [u8]) -> Told
    requires { (length bytes.now ≡ 16) × (66 ≤ length out.old) }
    ensures { Writes bytes.now out.old out.new result }
{
    match entry::unpack(sixteen(bytes)) {
        entry::Unpacked::Accepted(e) => {
            let n = csv_entry::write::put_line(out, 0, e);
            Told {
                written: n as u64,
                number: 0,
            }
        }
        entry::Unpacked::Refused(_) => Told {
            written: 0,
            number: 11,
        },
    }
}

// The line of the record whose 16 bytes are given, from the start of out.
pub fn rsmp_csv_line(bytes: &[u8], out: &mut [u8]) -> Told
    ensures { Writes bytes.now out.old out.new result }
{
    if out.len() < csv_entry::ROOM {
        return Told {
            written: 0,
            number: 4,
        };
    }
    if bytes.len() == 16 {
        return write_line(bytes, out);
    }
    Told {
        written: 0,
        number: 11,
    }
}

// n more lines; where the count ends it stays.
fn add(line: u64, n: u64) -> u64
    ensures { result ≡ added line n }
{
    line.saturating_add(n)
}

// The number of the line behind t, which is from its beginning on of line `line`.
fn line_behind(t: &[u8], line: u64) -> u64
    ensures { result ≡ line_behind t.now line }
{
    let n = csv_field::count_breaks(t);
    let next = add(line, n as u64);
    if csv_field::is_ended(t) {
        next
    } else {
        add(next, 1)
    }
}

fn number(j: Result<Entry, Reason>) -> u64
    ensures { result ≡ number_for j }
{
    match j {
        Ok(_) => 0,
        Err(Reason::Quoting) => 2,
        Err(Reason::Count) => 3,
        Err(Reason::Kind) => 4,
        Err(Reason::Presence) => 5,
        Err(Reason::Contents) => 6,
    }
}

fn packed(j: Result<Entry, Reason>) -> entry::Packed
    ensures { result.bytes ≡ bytes_for j }
{
    match j {
        Ok(e) => entry::pack(e),
        Err(_) => entry::Packed { bytes: [0u8; 16] },
    }
}

// The line that begins at `at`, which is not the header.
fn read_on(text: &[u8], at: usize, line: u64) -> Read
    ensures { ReadsOn text.now at line result }
{
    if text.len() <= at {
        return Read {
            next: text.len() as u64,
            line,
            own: line,
            answer: 7,
            bytes: [0u8; 16],
        };
    }
    let l = csv_field::take_line(text, at);
    let j = csv_line::judge_line(l);
    let end = l.next;
    let behind = line_behind(&text[at..end], line);
    let p = packed(j);
    let bytes = p.bytes;
    Read {
        next: end as u64,
        line: behind,
        own: line,
        answer: number(j),
        bytes,
    }
}

// The header, and the line behind it.
fn read_first(text: &[u8]) -> Read
    ensures { ReadsFirst text.now result }
{
    let l = csv_field::take_line(text, 0);
    if csv_line::is_header(l) {
        return read_on(text, l.next, 2);
    }
    Read {
        next: text.len() as u64,
        line: 1,
        own: 1,
        answer: 1,
        bytes: [0u8; 16],
    }
}

// What stands at a place of the text: the first line behind the header at 0, else the line that begins there.
pub fn rsmp_csv_read(text: &[u8], at: u64, line: u64) -> Read
    ensures { Reads text.now at line result }
{
    if at == 0 {
        return read_first(text);
    }
    read_on(text, at as usize, line)
}
