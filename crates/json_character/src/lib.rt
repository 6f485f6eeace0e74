// One character of a JSON string: UTF-8, escapes, pairs of surrogates.
#![tactic(auto)]

ghost use Rattle.std.specs.Prelude.{◌≡◌, ℕ, ◌+◌, ◌-◌, ◌≤◌, ◌<◌, ◌^◌, length, get_or, drop};
ghost use Rattle.json_character.specs.Char.{hex_of, hex4_of, hex4_at, escape_of, unicode_of, two_of, three_of, four_of, raw_of, char_of, is_plain};

// A character and how many bytes it has after its first, the closing quotation mark, or neither.
#[derive(Clone, Copy)]
pub enum Char {
    One(u32, usize),
    Close,
    Bad,
}

// The byte at a place, and 0, which can stand nowhere in a string, past the end.
fn byte(s: &[u8], at: usize) -> u8
    ensures { result ≡ get_or s.now at 0 }
{
    s.get(at).copied().unwrap_or(0)
}

// The value of a hexadecimal digit, or 16.
#[tactic(auto, unfolding(crate::specs::Char::hex_of))]
fn hex(b: u8) -> u32
    ensures { result ≡ hex_of b }
{
    match b {
        b'0'..=b'9' => (b - b'0') as u32,
        b'A'..=b'F' => (b - b'A') as u32 + 10,
        b'a'..=b'f' => (b - b'a') as u32 + 10,
        _ => 16,
    }
}

// The number that four hexadecimal digits stand for, or 0x10000.
#[tactic(auto, unfolding(crate::specs::Char::hex4_of))]
fn hex4(a: u8, b: u8, c: u8, d: u8) -> u32
    ensures { result ≡ hex4_of a b c d }
{
    let w = hex(a);
    let x = hex(b);
    let y = hex(c);
    let z = hex(d);
    if w < 16 && x < 16 && y < 16 && z < 16 {
        w * 4096 + x * 256 + y * 16 + z
    } else {
        0x10000
    }
}

// A \u escape of the number h, before the bytes m and u and the number l.
#[tactic(auto, unfolding(crate::specs::Char::unicode_of))]
fn unicode(h: u32, m: u8, u: u8, l: u32) -> Char
    ensures { result ≡ unicode_of h m u l }
{
    match h {
        0xd800..=0xdbff if m == b'\\' && u == b'u' && matches!(l, 0xdc00..=0xdfff) => {
            Char::One(0x10000 + (h - 0xd800) * 1024 + (l - 0xdc00), 11)
        }
        0xd800..=0xdfff | 0x10000.. => Char::Bad,
        _ => Char::One(h, 5),
    }
}

// A character of two bytes, the first of them 0xc2 to 0xdf.
#[tactic(auto, unfolding(crate::specs::Char::two_of))]
fn two(x: u32, y: u32) -> Char
    requires { (0xc2 ≤ x) × (x < 0xe0) }
    ensures { result ≡ two_of x y }
{
    if matches!(y, 0x80..=0xbf) {
        Char::One((x - 0xc0) * 64 + (y - 0x80), 1)
    } else {
        Char::Bad
    }
}

// A character of three bytes, the first of them 0xe0 to 0xef: no overlong form, no surrogate.
#[tactic(auto, unfolding(crate::specs::Char::three_of, crate::specs::Char::in_three))]
fn three(x: u32, y: u32, z: u32) -> Char
    requires { (0xe0 ≤ x) × (x < 0xf0) }
    ensures { result ≡ three_of x y z }
{
    if !matches!((y, z), (0x80..=0xbf, 0x80..=0xbf)) {
        return Char::Bad;
    }
    match (x - 0xe0) * 4096 + (y - 0x80) * 64 + (z - 0x80) {
        ..0x800 | 0xd800..=0xdfff => Char::Bad,
        n => Char::One(n, 2),
    }
}

// A character of four bytes, the first of them 0xf0 to 0xf4: no overlong form, nothing above U+10FFFF.
#[tactic(auto, unfolding(crate::specs::Char::four_of, crate::specs::Char::in_four))]
fn four(x: u32, y: u32, z: u32, w: u32) -> Char
    requires { (0xf0 ≤ x) × (x < 0xf5) }
    ensures { result ≡ four_of x y z w }
{
    if !matches!((y, z, w), (0x80..=0xbf, 0x80..=0xbf, 0x80..=0xbf)) {
        return Char::Bad;
    }
    match (x - 0xf0) * 262144 + (y - 0x80) * 4096 + (z - 0x80) * 64 + (w - 0x80) {
        n @ 0x10000..=0x10ffff => Char::One(n, 3),
        _ => Char::Bad,
    }
}

// A character that is no escape, of one to four bytes.
#[tactic(auto, unfolding(crate::specs::Char::raw_of))]
fn raw(a: u8, b: u8, c: u8, d: u8) -> Char
    ensures { result ≡ raw_of a b c d }
{
    match a {
        0x20..=0x7f => Char::One(a as u32, 0),
        0xc2..=0xdf => two(a as u32, b as u32),
        0xe0..=0xef => three(a as u32, b as u32, c as u32),
        0xf0..=0xf4 => four(a as u32, b as u32, c as u32, d as u32),
        _ => Char::Bad,
    }
}

// The number that the four bytes from a place on stand for.
fn hex4_at(s: &[u8], at: usize) -> u32
    requires { at + 4 < 2 ^ 64 }
    ensures { result ≡ hex4_at s.now at }
{
    hex4(
        byte(s, at),
        byte(s, at + 1),
        byte(s, at + 2),
        byte(s, at + 3),
    )
}

// The character that a backslash and the byte e stand for.
#[tactic(auto, unfolding(crate::specs::Char::escape_of))]
fn escape(e: u8) -> Char
    ensures { result ≡ escape_of e }
{
    match e {
        b'"' => Char::One(0x22, 1),
        b'\\' => Char::One(0x5c, 1),
        b'/' => Char::One(0x2f, 1),
        b'b' => Char::One(8, 1),
        b'f' => Char::One(12, 1),
        b'n' => Char::One(10, 1),
        b'r' => Char::One(13, 1),
        b't' => Char::One(9, 1),
        _ => Char::Bad,
    }
}

// The \u escape at a place: its four digits, and the six bytes after them where those make a pair with it.
fn unicode_at(s: &[u8], at: usize) -> Char
    requires { at < length s.now }
    ensures { result ≡ unicode_of (hex4_at s.now (at + 2)) (get_or s.now (at + 6) 0) (get_or s.now (at + 7) 0) (hex4_at s.now (at + 8)) }
{
    let h = hex4_at(s, at + 2);
    let l = hex4_at(s, at + 8);
    unicode(h, byte(s, at + 6), byte(s, at + 7), l)
}

// The character at a place that is no escape.
fn raw_at(s: &[u8], at: usize) -> Char
    requires { at < length s.now }
    ensures { result ≡ raw_of (get_or s.now at 0) (get_or s.now (at + 1) 0) (get_or s.now (at + 2) 0) (get_or s.now (at + 3) 0) }
{
    raw(
        byte(s, at),
        byte(s, at + 1),
        byte(s, at + 2),
        byte(s, at + 3),
    )
}

// The character or the closing quotation mark at a place.
#[tactic(auto, using(crate::proofs::Laws::at_place))]
pub fn any(s: &[u8], at: usize) -> Char
    ensures { result ≡ char_of (drop at s.now) }
{
    if s.len() <= at {
        return Char::Bad;
    }
    match s[at] {
        b'"' => Char::Close,
        b'\\' => match byte(s, at + 1) {
            b'u' => unicode_at(s, at),
            e => escape(e),
        },
        _ => raw_at(s, at),
    }
}

// Whether a byte is a character by itself: of ASCII, and no control character, no quotation mark and no backslash.
#[tactic(auto, unfolding(crate::specs::Char::is_plain))]
pub fn is_plain(b: u8) -> bool
    ensures { result ≡ is_plain b }
{
    matches!(b, 0x20..=0x7f) && b != b'"' && b != b'\\'
}

// The same as `any`, quickly where the byte is plain, as nearly all are.
#[tactic(auto, using(crate::proofs::Laws::at_plain, crate::proofs::Laws::at_close))]
pub fn step(s: &[u8], at: usize) -> Char
    ensures { result ≡ char_of (drop at s.now) }
{
    match byte(s, at) {
        b if is_plain(b) => Char::One(b as u32, 0),
        b'"' => Char::Close,
        _ => any(s, at),
    }
}
