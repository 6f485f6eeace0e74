// A JSON reader: where the value at a place of a slice ends, by RFC 8259, with a limit on levels.
#![tactic(auto)]

ghost use Rattle.std.specs.Prelude.{◌≡◌, ◌≤◌, length, drop};
ghost use Rattle.json_text.specs.Ends.{Ends};
ghost use Rattle.json_value.specs.Grammar.{Json};
ghost use Rattle.json_value.specs.Reader.{is_space, literal, read_scalar, read_name, read_start, read_mark, read_entry, read_value, inside_of};
ghost use Rattle.json_value.specs.Answers.{Skipped, Marks, last_of};

use json_text::Read;

// What follows a value between brackets: the closing byte, or a comma, with the place after it.
#[derive(Clone, Copy)]
pub enum Mark {
    Close(usize),
    Comma(usize),
    Neither,
}

fn is_space(b: u8) -> bool
    ensures { result ≡ is_space b }
{
    b == b' ' || b == b'\t' || b == b'\n' || b == b'\r'
}

// The place after white space.
#[tactic(auto, using(crate::proofs::Steps::space_steps))]
pub fn space(s: &[u8], at: usize) -> usize
    ensures { Skipped s.now at result }
{
    for i in at..s.len() {
        if !is_space(s[i]) {
            return i;
        }
    }
    at.max(s.len())
}

// The rest of a word.
#[tactic(auto, using(crate::proofs::Words::word_steps))]
fn word(s: &[u8], at: usize, w: &[u8]) -> Read
    requires { at ≤ length s.now }
    ensures { (j : Json) → Ends s.now at (literal j w.now (drop at s.now)) result }
{
    if s[at..].starts_with(w) {
        return Read::End(at + w.len());
    }
    Read::Bad
}

// A value that is no array and no object.
#[tactic(auto, using(crate::proofs::Steps::scalar_steps))]
fn scalar(s: &[u8], at: usize) -> Read
    ensures { Ends s.now at (read_scalar (drop at s.now)) result }
{
    if s.len() <= at {
        return Read::Bad;
    }
    match s[at] {
        b'"' => json_text::chars(s, at + 1),
        b't' => word(s, at + 1, b"rue"),
        b'f' => word(s, at + 1, b"alse"),
        b'n' => word(s, at + 1, b"ull"),
        _ => json_number::number(s, at),
    }
}

// The value's place after the name that stands at a place.
#[tactic(auto, using(crate::proofs::Steps::name_steps))]
pub fn name(s: &[u8], at: usize) -> Read
    ensures { Ends s.now at (read_name (drop at s.now)) result }
{
    if s.get(at) != Some(&b'"') {
        return Read::Bad;
    }
    let Read::End(e) = json_text::chars(s, at + 1) else {
        return Read::Bad;
    };
    let k = space(s, e);
    if s.get(k) != Some(&b':') {
        return Read::Bad;
    }
    Read::End(space(s, k + 1))
}

// The place of the value that comes next between brackets, or after a name between braces.
#[tactic(auto, using(crate::proofs::Steps::start_steps))]
pub fn start(s: &[u8], at: usize, close: u8) -> Read
    ensures { Ends s.now at (read_start close (drop at s.now)) result }
{
    let k = space(s, at);
    if close == b'}' {
        return name(s, k);
    }
    if s.len() <= k {
        return Read::Bad;
    }
    Read::End(k)
}

// The closing byte or the comma after a value.
#[tactic(auto, using(crate::proofs::Steps::mark_steps))]
pub fn after(s: &[u8], at: usize, close: u8) -> Mark
    ensures { Marks s.now at (read_mark close (drop at s.now)) result }
{
    let k = space(s, at);
    if s.len() <= k {
        return Mark::Neither;
    }
    match s[k] {
        b if b == close => Mark::Close(k + 1),
        b',' => Mark::Comma(k + 1),
        _ => Mark::Neither,
    }
}

// The end of the value at a place, with at most so many levels of arrays and objects.
#[cycle(entry_items_value)]
#[tactic(auto, using(crate::proofs::Nesting::value_steps))]
pub fn value(s: &[u8], at: usize, levels: u8) -> Read
    ensures { Ends s.now at (read_value levels (drop at s.now)) result }
{
    if s.len() <= at {
        return Read::Bad;
    }
    match s[at] {
        b'[' => items(s, at + 1, levels, b']'),
        b'{' => items(s, at + 1, levels, b'}'),
        _ => scalar(s, at),
    }
}

// What follows an opening bracket or brace.
#[cycle(entry_items_value)]
#[tactic(auto, using(crate::proofs::Nesting::items_steps))]
fn items(s: &[u8], at: usize, levels: u8, close: u8) -> Read
    ensures { Ends s.now at (inside_of close levels (drop at s.now)) result }
{
    if levels == 0 {
        return Read::Bad;
    }
    let k = space(s, at);
    if s.len() <= k {
        return Read::Bad;
    }
    if s[k] == close {
        return Read::End(k + 1);
    }
    let mut i = k;
    loop {
        match entry(s, i, levels - 1, close) {
            Mark::Close(n) => return Read::End(n),
            Mark::Comma(n) => i = n,
            Mark::Neither => return Read::Bad,
        }
    }
}

// One value between brackets, with its name between braces, and what follows it.
#[cycle(entry_items_value)]
#[tactic(auto, using(crate::proofs::Nesting::entry_steps))]
pub fn entry(s: &[u8], at: usize, levels: u8, close: u8) -> Mark
    ensures { Marks s.now at (last_of (read_entry close (λ v. read_value levels v) (drop at s.now))) result }
{
    let Read::End(v) = start(s, at, close) else {
        return Mark::Neither;
    };
    let Read::End(e) = value(s, v, levels) else {
        return Mark::Neither;
    };
    after(s, e, close)
}
