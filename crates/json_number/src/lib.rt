// A JSON number: a machine over its bytes, and the longest number at a place of a slice.
#![tactic(auto)]

ghost use Rattle.std.specs.Prelude.{◌≡◌, true, false, drop};
ghost use Rattle.basis.specs.Pick.{both};
ghost use Rattle.json_text.specs.Ends.{Ends};
ghost use Rattle.json_number.specs.Machine.{if_digit, lead_of, or_mark, or_point, sign_of, start_of, turn_of, is_stop, final_of, apart, read_number};

use json_text::Read;

// Where in a number a byte stands.
#[derive(Clone, Copy)]
pub enum At {
    Start,
    Minus,
    Zero,
    Int,
    Dot,
    Frac,
    Mark,
    Sign,
    Exp,
    Stop,
}

// On to q with a digit.
fn digit(b: u8, q: At) -> At
    ensures { result ≡ if_digit b q }
{
    match b {
        b'0'..=b'9' => q,
        _ => At::Stop,
    }
}

// The first digit: a zero stands alone.
fn lead(b: u8) -> At
    ensures { result ≡ lead_of b }
{
    match b {
        b'0' => At::Zero,
        _ => digit(b, At::Int),
    }
}

// On to the exponent with an e, else to q.
fn or_mark(b: u8, q: At) -> At
    ensures { result ≡ or_mark b q }
{
    match b {
        b'e' | b'E' => At::Mark,
        _ => q,
    }
}

// On to the fraction with a point, else to q.
fn or_point(b: u8, q: At) -> At
    ensures { result ≡ or_point b q }
{
    match b {
        b'.' => At::Dot,
        _ => q,
    }
}

// On to the sign of an exponent, or to its first digit.
fn sign(b: u8) -> At
    ensures { result ≡ sign_of b }
{
    match b {
        b'+' | b'-' => At::Sign,
        _ => digit(b, At::Exp),
    }
}

fn start(b: u8) -> At
    ensures { result ≡ start_of b }
{
    match b {
        b'-' => At::Minus,
        _ => lead(b),
    }
}

fn turn(q: At, b: u8) -> At
    ensures { result ≡ turn_of q b }
{
    match q {
        At::Start => start(b),
        At::Minus => lead(b),
        At::Zero => or_point(b, or_mark(b, At::Stop)),
        At::Int => or_point(b, or_mark(b, digit(b, At::Int))),
        At::Dot => digit(b, At::Frac),
        At::Frac => or_mark(b, digit(b, At::Frac)),
        At::Mark => sign(b),
        At::Sign => digit(b, At::Exp),
        At::Exp => digit(b, At::Exp),
        At::Stop => At::Stop,
    }
}

fn is_stop(q: At) -> bool
    ensures { result ≡ is_stop q }
{
    matches!(q, At::Stop)
}

fn is_final(q: At) -> bool
    ensures { result ≡ final_of q }
{
    matches!(q, At::Zero | At::Int | At::Frac | At::Exp)
}

#[tactic(auto, unfolding(crate::specs::Machine::apart))]
fn is_apart(b: u8) -> bool
    ensures { result ≡ apart b }
{
    !matches!(b, b'.' | b'e' | b'E' | b'0'..=b'9')
}

// Where the number at a place ends.
#[tactic(auto, using(crate::proofs::Steps::number_steps))]
pub fn number(s: &[u8], at: usize) -> Read
    ensures { Ends s.now at (read_number (drop at s.now)) result }
{
    if s.len() <= at {
        return Read::Bad;
    }
    let mut q = At::Start;
    for i in at..s.len() {
        let p = turn(q, s[i]);
        if is_stop(p) {
            if is_final(q) && is_apart(s[i]) {
                return Read::End(i);
            }
            return Read::Bad;
        }
        q = p;
    }
    if is_final(q) {
        return Read::End(s.len());
    }
    Read::Bad
}
