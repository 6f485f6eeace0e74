// Message identities: sixteen bytes, their text of 36 characters, and version 4 out of random bytes.
#![tactic(auto)]

ghost use Rattle.std.specs.Prelude.{◌≡◌, false, [], ◌∷◌, ◌<◌, ◌≤◌, ◌+◌, ◌/◌, ◌%◌, eqb, length};
ghost use Rattle.basis.specs.Pick.{pick};
ghost use Rattle.identity.specs.Hex.{hex_digit, hex_value, lower_hex, lowered};
ghost use Rattle.identity.specs.Text.{hex_bytes, identity_text};
ghost use Rattle.identity.specs.Version.{version4_of};
ghost use Rattle.basis.specs.Lists.{same_bytes};
ghost use Rattle.identity.specs.Read.{not_found, byte_at, bytes_of, IdentityRead};

#[repr(C)]
#[derive(Clone, Copy, PartialEq, Eq)]
pub struct Identity {
    pub bytes: [u8; 16],
}

#[tactic(auto, unfolding(crate::specs::Hex::hex_digit))]
fn hex_digit(n: u8) -> u8
    requires { n < 16 }
    ensures { result ≡ hex_digit n }
{
    if n < 10 { 48 + n } else { 87 + n }
}

fn first_digit(b: u8) -> u8
    ensures { result ≡ hex_digit (b / 16) }
{
    hex_digit(b / 16)
}

fn second_digit(b: u8) -> u8
    ensures { result ≡ hex_digit (b % 16) }
{
    hex_digit(b % 16)
}

// The digits of four bytes.
fn digits(a: u8, b: u8, c: u8, d: u8) -> [u8; 8]
    ensures { result ≡ hex_bytes (a ∷ b ∷ c ∷ d ∷ []) 0 4 }
{
    [
        first_digit(a),
        second_digit(a),
        first_digit(b),
        second_digit(b),
        first_digit(c),
        second_digit(c),
        first_digit(d),
        second_digit(d),
    ]
}

pub fn identity_text(id: Identity) -> [u8; 36]
    ensures { result ≡ identity_text id.bytes }
{
    let b = id.bytes;
    let x = digits(b[0], b[1], b[2], b[3]);
    let y = digits(b[4], b[5], b[6], b[7]);
    let z = digits(b[8], b[9], b[10], b[11]);
    let w = digits(b[12], b[13], b[14], b[15]);
    [
        x[0], x[1], x[2], x[3], x[4], x[5], x[6], x[7], b'-', y[0], y[1], y[2], y[3], b'-', y[4],
        y[5], y[6], y[7], b'-', z[0], z[1], z[2], z[3], b'-', z[4], z[5], z[6], z[7], w[0], w[1],
        w[2], w[3], w[4], w[5], w[6], w[7],
    ]
}

// Sixteen random bytes as an identity of version 4.
pub fn version4(random: Identity) -> Identity
    ensures { result.bytes ≡ version4_of random.bytes }
{
    let mut b = random.bytes;
    b[6] = 64 + b[6] % 16;
    b[8] = 128 + b[8] % 64;
    Identity { bytes: b }
}

pub fn same_identity(a: Identity, b: Identity) -> bool
    ensures { result ≡ same_bytes a.bytes b.bytes }
{
    a == b
}

// A letter A to F made small.
#[tactic(auto, unfolding(crate::specs::Hex::lower_hex))]
fn lower_hex(c: u8) -> u8
    ensures { result ≡ lower_hex c }
{
    match c {
        b'A'..=b'F' => c + 32,
        _ => c,
    }
}

#[tactic(auto, unfolding(crate::specs::Hex::hex_value))]
fn hex_value(c: u8) -> u8
    ensures { result ≡ hex_value c }
{
    match c {
        b'0'..=b'9' => c - 48,
        b'a'..=b'f' => c - 87,
        _ => 0,
    }
}

// The value of a digit, in either case.
fn value(c: u8) -> u8
    ensures { (result ≡ hex_value (lower_hex c)) × (result ≤ 15) }
{
    hex_value(lower_hex(c))
}

// The byte that the two digits at a place say.
fn byte_at(s: &[u8], at: usize) -> u8
    requires { at + 1 < length s.now }
    ensures { result ≡ byte_at (lowered s.now) at }
{
    value(s[at]) * 16 + value(s[at + 1])
}

// The bytes that the digits of 36 characters say, whether or not they are the text of an identity.
fn bytes_of(s: &[u8]) -> [u8; 16]
    requires { length s.now ≡ 36 }
    ensures { result ≡ bytes_of (lowered s.now) }
{
    [
        byte_at(s, 0),
        byte_at(s, 2),
        byte_at(s, 4),
        byte_at(s, 6),
        byte_at(s, 9),
        byte_at(s, 11),
        byte_at(s, 14),
        byte_at(s, 16),
        byte_at(s, 19),
        byte_at(s, 21),
        byte_at(s, 24),
        byte_at(s, 26),
        byte_at(s, 28),
        byte_at(s, 30),
        byte_at(s, 32),
        byte_at(s, 34),
    ]
}

// Whether s with its letters A to F made small is t. All bytes are looked at, so that the compiler takes several at a time.
fn same_lowered(s: &[u8], t: &[u8]) -> bool
    ensures { result ≡ same_bytes (lowered s.now) t.now }
{
    if s.len() != t.len() {
        return false;
    }
    let mut same = true;
    for (c, d) in s.iter().zip(t) {
        same &= lower_hex(*c) == *d;
    }
    same
}

#[derive(Clone, Copy)]
pub struct ReadIdentity {
    pub found: bool,
    pub id: Identity,
}

fn not_found() -> ReadIdentity
    ensures { result ≡ not_found }
{
    ReadIdentity {
        found: false,
        id: Identity { bytes: [0u8; 16] },
    }
}

// The identity whose text s is, in either case: its digits are taken for bytes, and the text of these is compared.
pub fn read_identity(s: &[u8]) -> ReadIdentity
    ensures { IdentityRead s.now result }
{
    if s.len() != 36 {
        return not_found();
    }
    let id = Identity { bytes: bytes_of(s) };
    let t = identity_text(id);
    if same_lowered(s, &t) {
        ReadIdentity { found: true, id }
    } else {
        not_found()
    }
}
