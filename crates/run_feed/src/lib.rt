// Cases from standard input, for the programs that are run and compared, and the line that answers each. A case is a head of six
// bytes: its kind, the four decimal digits of its body's length, a line feed; then the body and a line feed.
#![tactic(auto)]

ghost use Rattle.std.specs.Prelude.{◌≡◌, ◌+◌, ◌≤◌, ◌<◌, [], ◌∷◌, length as len};

pub mod packet;

use entry::Entry;
use label::Label;
use std::fmt;
use std::fmt::Write;

// Behind the body stand its line feed and zeros.
#[derive(Clone, Copy)]
pub struct Case<'a> {
    pub kind: u8,
    pub bytes: &'a [u8],
    length: usize,
    ghost within: { length ≤ len bytes.now },
}

impl<'a> Case<'a> {
    pub fn body(&self) -> &'a [u8] {
        &self.bytes[..self.length]
    }
}

// A line in the making, in lent bytes.
#[derive(Drop)]
pub struct Line<'a> {
    bytes: &'a mut [u8],
    end: usize,
    ghost within: { end ≤ len bytes.now },
}

impl Line<'_> {
    // Puts what is written from the line's end on by a function that answers the place behind it; an error where that is behind the bytes.
    pub fn put<F: FnOnce(&mut [u8], usize) -> usize>(&mut self, write: F) -> fmt::Result
        requires { F.IsAlwaysCallable write }
    {
        let end = write(self.bytes, self.end);
        if self.bytes.len() < end {
            return Err(fmt::Error);
        }
        self.end = end;
        Ok(())
    }

    pub fn put_bytes(&mut self, b: &[u8]) -> fmt::Result {
        self.put(|out, at| output::put_bytes(out, at, b))
    }

    fn say(&self) -> bool {
        io::write_all(1, &self.bytes[..self.end]) && io::write_all(1, b"\n")
    }
}

impl fmt::Write for Line<'_> {
    fn write_str(&mut self, s: &str) -> fmt::Result {
        self.put_bytes(s.as_bytes())
    }
}

// The hexadecimal digit in lower case of a value below 16; of any other value f.
pub fn hex_digit(value: u8) -> &'static str
    ensures one { len result.now ≡ 1 }
    ensures figure { value ≤ 9 → result.now ≡ (48 + value) ∷ [] }
    ensures letter { 10 ≤ value → value ≤ 15 → result.now ≡ (87 + value) ∷ [] }
{
    match value {
        0 => "0",
        1 => "1",
        2 => "2",
        3 => "3",
        4 => "4",
        5 => "5",
        6 => "6",
        7 => "7",
        8 => "8",
        9 => "9",
        10 => "a",
        11 => "b",
        12 => "c",
        13 => "d",
        14 => "e",
        _ => "f",
    }
}

// Bytes that print as hexadecimal digits.
#[derive(Clone, Copy)]
pub struct Hex<'a>(pub &'a [u8]);

impl fmt::Display for Hex<'_> {
    fn fmt<W: fmt::Write>(&self, f: &mut fmt::Formatter<W>) -> fmt::Result {
        for b in self.0 {
            f.write_str(hex_digit(*b / 16))?;
            f.write_str(hex_digit(*b % 16))?;
        }
        Ok(())
    }
}

pub fn put_label(line: &mut Line<'_>, l: Label) -> fmt::Result {
    let n = label::size(l);
    write!(line, "{} ", Hex(&l.bytes[..n]))
}

// The value of a decimal digit; of any other byte 0.
pub fn digit(b: u8) -> usize
    ensures { result ≤ 9 }
{
    match b {
        b'0'..=b'9' => (b - b'0') as usize,
        _ => 0,
    }
}

// What a head's four digits say.
fn length_of(head: [u8; 6]) -> usize
    ensures { result < 10000 }
{
    let [_, a, b, c, d, _] = head;
    digit(a) * 1000 + digit(b) * 100 + digit(c) * 10 + digit(d)
}

// Reads all of the bytes; none where the input ends before.
fn fill(bytes: &mut [u8]) -> Option<()> {
    if io::read_full(0, bytes) < bytes.len() {
        None
    } else {
        Some(())
    }
}

// The next case, its bytes in those that are lent; none where the input ends or a body has no room.
fn next(bytes: &mut [u8]) -> Option<Case<'_>> {
    let mut head = [0u8; 6];
    fill(&mut head)?;
    let length = length_of(head);
    bytes.fill(0);
    fill(bytes.get_mut(..=length)?)?;
    Some(Case {
        kind: head[0],
        bytes,
        length,
    })
}

// Answers each case with a line, or says that it found no room, until there is none or nothing more can be written. The bytes that a case
// and a line have room in are lent.
pub fn answer_each<F>(bytes: &mut [u8], line: &mut [u8], mut answer: F)
where
    F: FnMut(Case<'_>, &mut Line<'_>) -> fmt::Result,
    requires { F.IsAlwaysCallable answer }
{
    for _ in 0..u64::MAX {
        let Some(case) = next(bytes) else { break };
        let mut line = Line {
            bytes: line,
            end: 0,
        };
        let said = match answer(case, &mut line) {
            Ok(()) => line.say(),
            Err(_) => io::write_all(1, b"no room\n"),
        };
        if !said {
            break;
        }
    }
}

// The number of decimal digits, the largest of 64 bits where it is larger.
pub fn decimal(s: &[u8]) -> u64 {
    s.iter().fold(0, |n, b| behind(n, *b))
}

// No saturating arithmetic: that would answer otherwise from 18446744073709551610 on.
fn behind(n: u64, b: u8) -> u64 {
    if 1844674407370955160 < n {
        return u64::MAX;
    }
    n * 10 + (digit(b) as u64)
}

// How often a measured program does what it measures, as a digit says: 0 once, 1 ten times, and so on.
pub fn times(digit: u8) -> u32 {
    match digit {
        b'0' => 1,
        b'1' => 10,
        b'2' => 100,
        b'3' => 1000,
        _ => 10000,
    }
}

// The value of a hexadecimal digit in lower case; of any other byte 0.
fn hex_value(b: u8) -> u8
    ensures { result ≤ 15 }
{
    match b {
        b'0'..=b'9' => b - b'0',
        b'a'..=b'f' => b - b'a' + 10,
        _ => 0,
    }
}

// The bytes that stand in s as hexadecimal digits, zeros behind them.
pub fn unhex<const N: usize>(s: &[u8]) -> [u8; N] {
    let mut bytes = [0; N];
    let (pairs, rest) = s.as_chunks::<2>();
    for (b, [high, low]) in bytes.iter_mut().zip(pairs) {
        *b = hex_value(*high) * 16 + hex_value(*low);
    }
    if let ([high], Some(b)) = (rest, bytes.get_mut(pairs.len())) {
        *b = hex_value(*high) * 16;
    }
    bytes
}

// The fields of a case, from a place on; zero where they don't stand in the bytes.
#[derive(Clone, Copy)]
pub struct Fields<const N: usize> {
    pub bytes: [u8; N],
}

impl<const N: usize> Fields<N> {
    // The fields that stand in s as hexadecimal digits, zeros behind them.
    pub fn of(s: &[u8]) -> Fields<N> {
        Fields { bytes: unhex(s) }
    }

    // The number of the n bytes from byte at on.
    fn number(&self, at: usize, n: usize) -> u64 {
        self.bytes
            .get(at..)
            .and_then(|rest| rest.get(..n))
            .map_or(0, |field| bits::number(field))
    }

    pub fn wide(&self, at: usize) -> u64 {
        self.number(at, 8)
    }

    pub fn long(&self, at: usize) -> u32 {
        (self.number(at, 4) & 0xffff_ffff) as u32
    }

    pub fn short(&self, at: usize) -> u16 {
        (self.number(at, 2) & 0xffff) as u16
    }

    pub fn byte(&self, at: usize) -> u8 {
        self.bytes.get(at).copied().unwrap_or(0)
    }

    pub fn is_one(&self, at: usize) -> bool {
        self.byte(at) == 1
    }

    // The record whose fields the first 24 bytes are.
    pub fn entry(&self) -> Entry {
        Entry {
            time: self.wide(8),
            value: self.long(16),
            sequence: self.long(20),
            link: self.short(0),
            kind: self.short(2),
            item: self.short(4),
            flags: self.short(6),
        }
    }
}
