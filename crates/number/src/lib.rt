// Numbers as bits, bytes and decimal text, both ways, and the table's alphabet.
#![tactic(auto)]

ghost use Rattle.std.specs.Prelude.{◌≡◌, [], ◌∷◌, ◌+◌, ◌-◌, ◌*◌, ◌%◌, ◌≤◌, ◌<◌, length, drop};
ghost use Rattle.std.specs.List.{list_all};
ghost use Rattle.output.specs.Put.{Wrote};
ghost use Rattle.number.specs.Signed.{word_of, signed_of, signed16_of, at_most, four_of, signed_in};
ghost use Rattle.number.specs.Decimal.{digits, decimal_of};
ghost use Rattle.number.specs.Reading.{Reads, ReadsInt, says};
ghost use Rattle.number.specs.Alphabet.{in_alphabet, is_label};

// Four bytes, most significant first.
#[repr(C)]
#[derive(Clone, Copy)]
pub struct Four {
    pub bytes: [u8; 4],
}

// The 32 bits of v in two's complement.
pub fn word_of(v: i32) -> u32
    ensures { result ≡ word_of v }
{
    v.cast_unsigned()
}

// The value whose two's complement is w.
pub fn signed_of(w: u32) -> i32
    ensures { result ≡ signed_of w }
{
    w.cast_signed()
}

// The value whose two's complement in 16 bits is w.
pub fn signed16_of(w: u16) -> i32
    ensures { result ≡ signed16_of w }
{
    i32::from(w.cast_signed())
}

// Whether a is not above b.
pub fn at_most(a: i32, b: i32) -> bool
    ensures { result ≡ at_most a b }
{
    a <= b
}

pub fn four_of(v: i32) -> Four
    ensures { result.bytes ≡ four_of v }
{
    Four {
        bytes: v.to_be_bytes(),
    }
}

pub fn signed_in(b: Four) -> i32
    ensures { result ≡ signed_in b.bytes }
{
    i32::from_be_bytes(b.bytes)
}

fn last_digit(n: u64) -> u8
    ensures { result ≡ 48 + n % 10 }
{
    48 + ((n % 10) as u8)
}

// A text at the end of an array, with room for a sign before it.
#[derive(Clone, Copy)]
struct Text {
    bytes: [u8; 21],
    from: usize,
}

fn digits_of(n: u64) -> Text
    ensures { (drop result.from result.bytes ≡ digits n) × (0 < result.from) × (result.from ≤ 20) }
{
    let mut bytes = [0u8; 21];
    let mut from = 20;
    let mut left = n;
    // no counted loop: it goes on while more than one digit is left
    while 10 <= left {
        bytes[from] = last_digit(left);
        from -= 1;
        left = left / 10;
    }
    bytes[from] = last_digit(left);
    Text { bytes, from }
}

// The shortest decimal text of n, as one piece.
pub fn put_decimal(out: &mut [u8], at: usize, n: u64) -> usize
    ensures { Wrote out.old at (digits n ∷ []) out.new result }
{
    let t = digits_of(n);
    let bytes = t.bytes;
    let from = t.from;
    output::put_bytes(out, at, &bytes[from..])
}

fn put_negative(out: &mut [u8], at: usize, n: u64) -> usize
    ensures { Wrote out.old at ((45 ∷ digits n) ∷ []) out.new result }
{
    let t = digits_of(n);
    let mut bytes = t.bytes;
    let from = t.from - 1;
    bytes[from] = b'-';
    output::put_bytes(out, at, &bytes[from..])
}

// The shortest decimal text of v, as one piece.
pub fn put_i32(out: &mut [u8], at: usize, v: i32) -> usize
    ensures { Wrote out.old at (decimal_of v ∷ []) out.new result }
{
    let w = word_of(v);
    if w < 0x8000_0000 {
        put_decimal(out, at, u64::from(w))
    } else {
        put_negative(out, at, 0x1_0000_0000 - u64::from(w))
    }
}

#[derive(Clone, Copy)]
pub enum Number {
    Is(u32),
    No,
}

#[derive(Clone, Copy)]
pub enum Int {
    Is(i32),
    No,
}

fn digit_value(b: u8) -> u64
    ensures { (result ≡ b - 48) × (result < 208) }
{
    u64::from(b.saturating_sub(b'0'))
}

fn said(s: &[u8]) -> u64
    requires { length s.now ≤ 10 }
    ensures { result ≡ says 0 s.now }
{
    let mut n = 0;
    for b in s {
        n = n * 10 + digit_value(*b);
    }
    n
}

// The number from 0 to the limit whose shortest decimal text is s. What s says is written again and compared.
pub fn read_decimal(s: &[u8], limit: u32) -> Number
    ensures { Reads limit s.now result }
{
    if 10 < s.len() {
        return Number::No;
    }
    let n = said(s);
    if u64::from(limit) < n {
        return Number::No;
    }
    let t = digits_of(n);
    let bytes = t.bytes;
    let from = t.from;
    if s == &bytes[from..] {
        Number::Is(n as u32)
    } else {
        Number::No
    }
}

// The value below 0 whose shortest decimal text is a minus and s.
fn read_negative(s: &[u8]) -> Int
    ensures { ReadsInt (45 ∷ s.now) result }
{
    match read_decimal(s, 0x8000_0000) {
        Number::Is(n) => {
            if n == 0 {
                return Int::No;
            }
            let v = signed_of(0xffff_ffff - n + 1);
            Int::Is(v)
        }
        Number::No => Int::No,
    }
}

// The signed 32-bit value whose shortest decimal text is s.
pub fn read_i32(s: &[u8]) -> Int
    ensures { ReadsInt s.now result }
{
    if s.len() == 0 {
        return Int::No;
    }
    if s[0] == b'-' {
        return read_negative(&s[1..]);
    }
    match read_decimal(s, 0x7fff_ffff) {
        Number::Is(n) => {
            let v = signed_of(n);
            Int::Is(v)
        }
        Number::No => Int::No,
    }
}

pub fn in_alphabet(b: u8) -> bool
    ensures { result ≡ in_alphabet b }
{
    0x20 <= b && b <= 0x7e && b != b'"' && b != b'\\'
}

fn all_in_alphabet(s: &[u8]) -> bool
    ensures { result ≡ list_all in_alphabet s.now }
{
    s.iter().all(|b| in_alphabet(*b))
}

// Whether s is 1 to 32 bytes of the alphabet.
pub fn is_label(s: &[u8]) -> bool
    ensures { result ≡ is_label s.now }
{
    1 <= s.len() && s.len() <= 32 && all_in_alphabet(s)
}
