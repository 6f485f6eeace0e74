// Whether a slice is a packet: one JSON object of at most eight levels with no name twice in an object.
#![tactic(auto)]

ghost use Rattle.std.specs.Prelude.{◌≡◌, ◌+◌, ◌<◌, length, drop};
ghost use Rattle.json_text.specs.Decoded.{decoded};
ghost use Rattle.json_text.specs.Ends.{Ends};
ghost use Rattle.json_packet.specs.Scan.{same_string, again, read_token, scan};
ghost use Rattle.json_packet.specs.Packet.{is_packet};
ghost use Rattle.json_packet.specs.Notes.{Notes};

use json_sure::Listed;
use json_text::Read;

// Whether a slice is a packet, and how many places of its object's entries were noted: all of them, or none.
#[derive(Clone, Copy)]
pub struct Judgement {
    pub packet: bool,
    pub count: usize,
}

// A key of marks for readers to whom nobody lends random bytes.
pub const FIXED_KEY: u32 = 2654435761;

const NO_PACKET: Judgement = Judgement {
    packet: false,
    count: 0,
};

// Whether at q stands a string with the characters that begin at p.
#[tactic(auto, using(crate::proofs::Scans::same_steps))]
fn same_string(s: &[u8], p: usize, q: usize) -> bool
    ensures { result ≡ same_string (decoded (drop p s.now)) (drop q s.now) }
{
    s.get(q) == Some(&b'"') && json_text::same(s, p, q + 1)
}

// Whether the string at a place is the name of a member, and of a later one in the same object too.
#[tactic(auto, using(crate::proofs::Scans::again_steps))]
fn is_again(s: &[u8], at: usize) -> bool
    requires { at < length s.now }
    ensures { result ≡ again (drop (at + 1) s.now) (drop at s.now) }
{
    let p = at + 1;
    let mut i = at;
    while let Read::End(e) = json_find::step(s, i, b'}') {
        if same_string(s, p, json_value::space(s, e)) {
            return true;
        }
        i = e;
    }
    false
}

// The place after the string or the byte at a place, unless the string is a name again.
#[tactic(auto, using(crate::proofs::Scans::token_steps))]
fn token(s: &[u8], at: usize) -> Read
    requires { at < length s.now }
    ensures { Ends s.now at (read_token (drop at s.now)) result }
{
    if s[at] != b'"' {
        return Read::End(at + 1);
    }
    if is_again(s, at) {
        return Read::Bad;
    }
    json_text::chars(s, at + 1)
}

#[tactic(auto, using(crate::proofs::Scans::scan_steps))]
fn names_once(s: &[u8]) -> bool
    ensures { result ≡ scan s.now }
{
    let mut i = 0;
    while i < s.len() {
        let Read::End(e) = token(s, i) else {
            return false;
        };
        i = e;
    }
    true
}

// Judges a slice, and notes where the entries of its object begin. Whatever the key of its names' marks is, the judgement is the same.
pub fn judge(s: &[u8], key: u32, places: &mut [usize]) -> Judgement
    ensures { Notes s.now places.new result }
{
    let i = json_value::space(s, 0);
    if s.len() <= i {
        return NO_PACKET;
    }
    if s[i] != b'{' {
        return NO_PACKET;
    }
    let o = json_sure::object(key, s, i + 1, places);
    match o {
        Listed::Bad => NO_PACKET,
        Listed::End(e, sure, count) => {
            if json_value::space(s, e) < s.len() {
                return NO_PACKET;
            }
            if sure {
                return Judgement {
                    packet: true,
                    count,
                };
            }
            if names_once(s) {
                return Judgement {
                    packet: true,
                    count,
                };
            }
            NO_PACKET
        }
    }
}

pub fn is_packet(s: &[u8]) -> bool
    ensures { result ≡ is_packet s.now }
{
    let mut places = [0usize; 1];
    judge(s, FIXED_KEY, &mut places).packet
}
