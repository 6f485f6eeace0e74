// The strings of a JSON text: where they end, what they are compared with, and a copy. A character is one step.
#![tactic(auto)]

ghost use Rattle.std.specs.Prelude.{◌≡◌, ℕ, ◌+◌, ◌≤◌, eqb, ltb, get_or, drop};
ghost use Rattle.basis.specs.Pick.{pick};
ghost use Rattle.json_text.specs.Decoded.{decoded, is_text, same_text};
ghost use Rattle.json_text.specs.Run.{run};
ghost use Rattle.json_text.specs.Ends.{Ends};
ghost use Rattle.json_text.specs.Copied.{no_copy, copy_of};

use json_character::Char;

// Where a reading ends, or that there is nothing to read.
#[derive(Clone, Copy)]
pub enum Read {
    End(usize),
    Bad,
}

// The place after the plain characters that begin at `at`.
#[tactic(auto, using(crate::proofs::Runs::runs))]
fn plain(s: &[u8], at: usize) -> usize
    ensures { result ≡ at + run (drop at s.now) }
{
    for i in at..s.len() {
        if !json_character::is_plain(s[i]) {
            return i;
        }
    }
    at.max(s.len())
}

fn is_quote(s: &[u8], at: usize) -> bool
    ensures { result ≡ eqb (get_or s.now at 0) 0x22 }
{
    s.get(at) == Some(&b'"')
}

// The end of the string whose characters begin at `at`.
#[tactic(auto, using(crate::proofs::Runs::char_steps))]
pub fn chars(s: &[u8], at: usize) -> Read
    ensures { Ends s.now at (decoded (drop at s.now)) result }
{
    let mut i = at;
    loop {
        let k = plain(s, i);
        if is_quote(s, k) {
            return Read::End(k + 1);
        }
        match json_character::any(s, k) {
            Char::One(_, w) => i = k + (1 + w),
            Char::Close => return Read::End(k + 1),
            Char::Bad => return Read::Bad,
        }
    }
}

// Whether the string whose characters begin at `at` is `name`: its code points are the bytes of the name, which is of ASCII.
#[tactic(auto, using(crate::proofs::Texts::name_steps))]
#[inline(always)]
pub fn is_name(s: &[u8], at: usize, name: &[u8]) -> bool
    ensures { result ≡ is_text (decoded (drop at s.now)) name.now }
{
    let mut i = at;
    for b in name {
        match s.get(i) {
            Some(c) if json_character::is_plain(*c) => {
                if c != b {
                    return false;
                }
                i += 1;
            }
            _ => match json_character::step(s, i) {
                Char::One(x, w) if x == *b as u32 => i += 1 + w,
                _ => return false,
            },
        }
    }
    matches!(json_character::step(s, i), Char::Close)
}

// Whether the strings whose characters begin at p and q are the same.
#[tactic(auto, using(crate::proofs::Texts::same_steps))]
pub fn same(s: &[u8], p: usize, q: usize) -> bool
    ensures { result ≡ same_text (decoded (drop p s.now)) (decoded (drop q s.now)) }
{
    let mut i = p;
    let mut j = q;
    loop {
        match (json_character::step(s, i), json_character::step(s, j)) {
            (Char::One(x, w), Char::One(y, v)) if x == y => {
                i += 1 + w;
                j += 1 + v;
            }
            (Char::Close, Char::Close) => return true,
            _ => return false,
        }
    }
}

// A string that was copied out: its bytes, zeros after them, and how many they are. Where `ok` is false all the rest is zero.
#[repr(C)]
#[derive(Clone, Copy)]
pub struct Copied {
    pub length: usize,
    pub bytes: [u8; 36],
    pub ok: bool,
}

#[tactic(auto, unfolding(crate::specs::Copied::no_copy))]
fn no_copy() -> Copied
    ensures { result ≡ no_copy }
{
    Copied {
        length: 0,
        bytes: [0u8; 36],
        ok: false,
    }
}

// How many bytes are copied at most.
fn room_for(most: usize) -> usize
    ensures { result ≡ pick (ltb most 36) most 36 }
{
    most.min(36)
}

// The plain characters from `at` to before `end`, where the string closes.
#[tactic(auto, using(crate::proofs::Copies::copied_plain))]
fn copy_plain(s: &[u8], at: usize, end: usize) -> Copied
    requires { (end ≡ at + run (drop at s.now)) × (get_or s.now end 0 ≡ 0x22) × (end ≤ at + 36) }
    ensures { (most : ℕ) → end ≤ at + most → result ≡ copy_of most (decoded (drop at s.now)) }
{
    let mut bytes = [0u8; 36];
    let length = end - at;
    bytes[..length].copy_from_slice(&s[at..end]);
    Copied {
        length,
        bytes,
        ok: true,
    }
}

#[tactic(auto, using(crate::proofs::Copies::copy_steps))]
fn copy_one_by_one(s: &[u8], at: usize, most: usize) -> Copied
    ensures { result ≡ copy_of most (decoded (drop at s.now)) }
{
    let room = room_for(most);
    let mut bytes = [0u8; 36];
    let mut k = 0;
    let mut i = at;
    loop {
        match json_character::step(s, i) {
            Char::One(x, w) if k < room && x < 128 => {
                bytes[k] = x as u8;
                k += 1;
                i += 1 + w;
            }
            Char::Close => return Copied {
                length: k,
                bytes,
                ok: true,
            },
            _ => return no_copy(),
        }
    }
}

// The string whose characters begin at `at`, where there are at most `most` of them, and at most 36, all of them ASCII.
pub fn copy_text(s: &[u8], at: usize, most: usize) -> Copied
    ensures { result ≡ copy_of most (decoded (drop at s.now)) }
{
    let end = plain(s, at);
    if is_quote(s, end) && end - at <= room_for(most) {
        return copy_plain(s, at, end);
    }
    copy_one_by_one(s, at, most)
}
