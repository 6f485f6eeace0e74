// Reads packets from standard input and writes what each means on a line, or `-` where it is none; tests/packets.py makes the
// packets and the lines. The first part of a line walks the tokens, the second looks up the members of the packet's object.
// Where a walk goes on is what a reader answers, so each is bounded by the bytes that it can have steps at.
#![tactic(auto)]

use json_character::Char;
use json_text::Read;
use run_feed::Line;
use std::fmt;
use std::fmt::Write;

// The place behind a token or a string that was put.
type Walked = Result<usize, fmt::Error>;

// A code point in hexadecimal.
fn put_point(line: &mut Line<'_>, point: u32) -> fmt::Result {
    for place in [28, 24, 20, 16, 12, 8, 4] {
        let rest = point.wrapping_shr(place);
        if 0 < rest {
            line.write_str(run_feed::hex_digit((rest % 16) as u8))?;
        }
    }
    line.write_str(run_feed::hex_digit((point % 16) as u8))
}

// The code points of the string whose characters begin at a place, in hexadecimal, with points between.
fn put_string(line: &mut Line<'_>, s: &[u8], first: usize) -> Walked {
    let mut next = first;
    for _ in 0..s.len() {
        match json_character::step(s, next) {
            Char::One(point, width) => {
                if next != first {
                    line.write_str(".")?;
                }
                put_point(line, point)?;
                next = forward(next, width);
            }
            Char::Close => return Ok(forward(next, 0)),
            Char::Bad => break,
        }
    }
    Ok(next)
}

fn forward(at: usize, width: usize) -> usize {
    if at < 10000 && width < 100 {
        at + 1 + width
    } else {
        10000
    }
}

fn put_number(line: &mut Line<'_>, s: &[u8], i: usize) -> Walked {
    match json_number::number(s, i) {
        Read::End(e) => {
            line.write_str("#")?;
            if let Some(text) = s.get(i..e) {
                line.put_bytes(text)?;
            }
            Ok(e)
        }
        Read::Bad => {
            line.write_str("?")?;
            Ok(s.len())
        }
    }
}

fn put_text(line: &mut Line<'_>, s: &[u8], i: usize) -> Walked {
    line.write_str("\"")?;
    put_string(line, s, forward(i, 0))
}

fn put_word(line: &mut Line<'_>, b: u8, next: usize) -> Walked {
    line.put_bytes(&[b])?;
    Ok(next)
}

// The token at i; a bracket, a brace, a comma and a colon are themselves.
fn put_token(line: &mut Line<'_>, s: &[u8], i: usize, b: u8) -> Walked {
    match b {
        b'-' | b'0'..=b'9' => put_number(line, s, i),
        b'"' => put_text(line, s, i),
        b'n' | b't' => put_word(line, b, forward(i, 3)),
        b'f' => put_word(line, b, forward(i, 4)),
        _ => put_word(line, b, forward(i, 0)),
    }
}

fn put_tokens(line: &mut Line<'_>, s: &[u8]) -> fmt::Result {
    let mut next = json_value::space(s, 0);
    for _ in 0..s.len() {
        let Some(b) = s.get(next) else { break };
        next = json_value::space(s, put_token(line, s, next, *b)?);
    }
    Ok(())
}

// The kind of the value at a place, by its first byte.
fn letter(s: &[u8], at: usize) -> u8 {
    match s.get(at) {
        None => b'?',
        Some(b'-' | b'0'..=b'9') => b'#',
        Some(b't' | b'f') => b'b',
        Some(b) => *b,
    }
}

fn put_kind(line: &mut Line<'_>, s: &[u8], place: Read) -> fmt::Result {
    match place {
        Read::End(p) => line.put_bytes(&[letter(s, p)]),
        Read::Bad => line.write_str("!"),
    }
}

// Puts the entry of an object or an array that begins at a place, and each behind it.
fn put_each<F>(line: &mut Line<'_>, s: &[u8], first: usize, close: u8, put: F) -> fmt::Result
where
    F: Fn(&mut Line<'_>, usize) -> fmt::Result,
    requires { F.IsAlwaysCallable put }
{
    let mut i = first;
    for _ in 0..s.len() {
        put(line, i)?;
        match json_find::step(s, i, close) {
            Read::End(e) => i = e,
            Read::Bad => break,
        }
    }
    Ok(())
}

// The kinds of the elements of an array at a place; of no other value.
fn put_array(line: &mut Line<'_>, s: &[u8], array: usize) -> fmt::Result {
    match json_find::inside(s, array, b'[', b']') {
        Read::End(first) => put_each(line, s, first, b']', |line, i| {
            put_kind(line, s, json_value::start(s, i, b']'))
        }),
        Read::Bad => Ok(()),
    }
}

fn put_value(line: &mut Line<'_>, s: &[u8], place: Read) -> fmt::Result {
    put_kind(line, s, place)?;
    match place {
        Read::End(p) => put_array(line, s, p),
        Read::Bad => Ok(()),
    }
}

fn agree(a: Read, b: Read) -> bool {
    match a {
        Read::End(p) => match b {
            Read::End(q) => p == q,
            Read::Bad => false,
        },
        Read::Bad => false,
    }
}

// The value of the member whose name is the first n bytes.
fn looked_up(s: &[u8], object: usize, bytes: &[u8], n: usize) -> Read {
    match bytes.get(..n) {
        Some(name) => json_find::member(s, object, name),
        None => Read::Bad,
    }
}

// Whether looking a name up finds the value that stands behind it: = it does, ! it does not, ~ the name is too long for a fixed one.
fn found(s: &[u8], object: usize, name: usize, value: Read) -> char {
    let c = json_text::copy_text(s, forward(name, 0), 36);
    if !c.ok {
        '~'
    } else if agree(looked_up(s, object, &c.bytes, c.length), value) {
        '='
    } else {
        '!'
    }
}

// The member at a place of an object.
fn put_member(line: &mut Line<'_>, s: &[u8], object: usize, i: usize) -> fmt::Result {
    let value = json_value::start(s, i, b'}');
    let found = found(s, object, json_value::space(s, i), value);
    write!(line, " {found}")?;
    put_value(line, s, value)
}

fn put_object(line: &mut Line<'_>, s: &[u8]) -> fmt::Result {
    let object = json_value::space(s, 0);
    match json_find::inside(s, object, b'{', b'}') {
        Read::End(first) => put_each(
            line,
            s,
            first,
            b'}',
            |line, i| put_member(line, s, object, i),
        ),
        Read::Bad => Ok(()),
    }
}

fn put_meaning(line: &mut Line<'_>, s: &[u8]) -> fmt::Result {
    if json_packet::is_packet(s) {
        put_tokens(line, s)?;
        put_object(line, s)
    } else {
        line.write_str("-")
    }
}

fn main() {
    run_feed::answer_each(&mut [0; 8192], &mut [0; 65536], |case, line| {
        put_meaning(line, case.body())
    });
}
