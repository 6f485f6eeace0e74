// A JSON value read once for its end and for its names: each name has a mark, and where no mark comes twice no name does.
#![tactic(auto)]

ghost use Rattle.std.specs.Prelude.{◌≡◌, eqb, ◌≤◌, length, drop};
ghost use Rattle.json_text.specs.Decoded.{decoded};
ghost use Rattle.json_value.specs.Reader.{read_entry, read_value, inside_of};
ghost use Rattle.json_sure.specs.Sure.{mark_read, mark_at, is_new, all_of, noted_in, note_of};
ghost use Rattle.json_sure.specs.Judges.{ended_of, followed_of, Judges, JudgesIn, EntersIn};
ghost use Rattle.json_sure.specs.Lists.{judged_of, Placed, all_or_none, Finds};

use json_character::Char;
use json_text::Read;
use json_value::Mark;

const NO_MARK: u64 = 4294967296;

// The greatest of 32 bits: modulo a power of two some names would have equal marks with every key.
const PRIME: u64 = 4294967291;

// Levels of the values in a packet's object, which is itself the first of eight.
const LEVELS_INSIDE: u8 = 7;

// The end of a value, and whether its marks show that no name is twice in an object; or that there is no value.
#[derive(Clone, Copy)]
pub enum Judged {
    End(usize, bool),
    Bad,
}

// What follows a value between brackets, and whether that value is sure.
#[derive(Clone, Copy)]
pub enum Entered {
    Close(usize, bool),
    Comma(usize, bool),
    Neither,
}

// The end of an object, whether its marks show that no name is twice, and how many places of its entries were noted: all, or none.
#[derive(Clone, Copy)]
pub enum Listed {
    End(usize, bool, usize),
    Bad,
}

// How many marks of an object's names stand in the lent marks, and whether all is sure so far.
#[derive(Clone, Copy)]
pub struct Seen {
    pub count: usize,
    pub sure: bool,
}

// The mark of the string whose characters begin at a place.
#[tactic(auto, using(crate::proofs::Marks::mark_steps))]
fn mark(key: u32, s: &[u8], at: usize) -> u64
    ensures { result ≡ mark_read key 1 (decoded (drop at s.now)) }
{
    let factor = key as u64;
    let mut i = at;
    let mut h: u64 = 1;
    loop {
        match s.get(i) {
            Some(b) if json_character::is_plain(*b) => {
                h = (h * factor + *b as u64) % PRIME;
                i += 1;
            }
            _ => match json_character::step(s, i) {
                Char::One(x, w) => {
                    h = (h * factor + x as u64) % PRIME;
                    i += 1 + w;
                }
                Char::Close => return h,
                Char::Bad => return NO_MARK,
            },
        }
    }
}

// The mark of the name of the entry at a place; an array's entries have none.
#[tactic(auto, using(crate::proofs::Marks::name_marks))]
fn mark_at(key: u32, s: &[u8], at: usize, close: u8) -> u64
    ensures { result ≡ mark_at key (eqb close 0x7d) (drop at s.now) }
{
    if close == b'}' {
        let k = json_value::space(s, at);
        if s.len() <= k {
            return NO_MARK;
        }
        return mark(key, s, k + 1);
    }
    NO_MARK
}

fn all(before: bool, value: bool, new: bool) -> bool
    ensures { result ≡ all_of before value new }
{
    before && value && new
}

// Whether a mark is none of the others. All are looked at, so that the compiler takes several at a time.
#[tactic(auto, using(crate::proofs::New::new_steps))]
fn is_new(marks: &[u32], m: u32) -> bool
    ensures { result ≡ is_new m marks.now }
{
    let mut new = true;
    for k in marks {
        new &= *k != m;
    }
    new
}

// One more name, and whether its value is sure. Its mark is put behind the others where there is room.
#[tactic(auto, using(crate::proofs::Notes::note_steps))]
fn note(marks: &mut [u32], t: Seen, m: u64, value: bool) -> Seen
    requires { t.count ≤ length marks.old }
    ensures { (result.count ≤ length marks.new) × (noted_in marks.new result ≡ note_of (length marks.old) (noted_in marks.old t) m value) }
{
    let count = t.count;
    let before = t.sure;
    if NO_MARK <= m {
        return Seen {
            count,
            sure: all(before, value, true),
        };
    }
    if marks.len() <= count {
        return Seen { count, sure: false };
    }
    let k = m as u32;
    let new = is_new(&marks[0..count], k);
    marks[count] = k;
    Seen {
        count: count + 1,
        sure: all(before, value, new),
    }
}

fn ended(r: Read) -> Judged
    ensures { result ≡ ended_of r }
{
    match r {
        Read::End(e) => Judged::End(e, true),
        Read::Bad => Judged::Bad,
    }
}

fn followed(m: Mark, value: bool) -> Entered
    ensures { result ≡ followed_of m value }
{
    match m {
        Mark::Close(n) => Entered::Close(n, value),
        Mark::Comma(n) => Entered::Comma(n, value),
        Mark::Neither => Entered::Neither,
    }
}

// The value at a place, with at most so many levels of arrays and objects.
#[cycle(entry_items_value_in)]
fn value_in(key: u32, s: &[u8], at: usize, levels: u8, marks: &mut [u32]) -> Judged
    ensures { JudgesIn key (length marks.old) s.now at (read_value levels (drop at s.now)) result }
{
    if s.len() <= at {
        return Judged::Bad;
    }
    match s[at] {
        b'[' => items(key, s, at + 1, levels, b']', marks),
        b'{' => items(key, s, at + 1, levels, b'}', marks),
        _ => ended(json_value::value(s, at, levels)),
    }
}

// What follows an opening bracket or brace.
#[cycle(entry_items_value_in)]
fn items(key: u32, s: &[u8], at: usize, levels: u8, close: u8, marks: &mut [u32]) -> Judged
    ensures { JudgesIn key (length marks.old) s.now at (inside_of close levels (drop at s.now)) result }
{
    if levels == 0 {
        return Judged::Bad;
    }
    let k = json_value::space(s, at);
    if s.len() <= k {
        return Judged::Bad;
    }
    if s[k] == close {
        return Judged::End(k + 1, true);
    }
    let mut i = k;
    let mut seen = Seen {
        count: 0,
        sure: true,
    };
    loop {
        let count = seen.count;
        let m = entry(key, s, i, levels - 1, close, &mut marks[count..]);
        match m {
            Entered::Close(n, q) => {
                let t = note(marks, seen, mark_at(key, s, i, close), q);
                return Judged::End(n, t.sure);
            }
            Entered::Comma(n, q) => {
                seen = note(marks, seen, mark_at(key, s, i, close), q);
                i = n;
            }
            Entered::Neither => return Judged::Bad,
        }
    }
}

// One value between brackets, with its name between braces, and what follows it.
#[cycle(entry_items_value_in)]
fn entry(key: u32, s: &[u8], at: usize, levels: u8, close: u8, marks: &mut [u32]) -> Entered
    ensures { EntersIn key (length marks.old) s.now at (read_entry close (λ v. read_value levels v) (drop at s.now)) result }
{
    let Read::End(v) = json_value::start(s, at, close) else {
        return Entered::Neither;
    };
    let Judged::End(e, sure) = value_in(key, s, v, levels, marks) else {
        return Entered::Neither;
    };
    followed(json_value::after(s, e, close), sure)
}

// Notes the place of one more entry, where there is room.
#[tactic(auto, using(crate::proofs::Listing::place_steps))]
fn note_place(places: &mut [usize], n: usize, at: usize)
    ensures { Placed places.old n at places.new }
{
    if n < places.len() {
        places[n] = at;
    }
}

fn all_or_none(n: usize, room: usize) -> usize
    ensures { result ≡ all_or_none n room }
{
    if room < n { 0 } else { n }
}

// What follows the opening brace of a packet's object, and the places where its entries begin. There is room for the marks of 820 names at
// a time: a text of 4,096 bytes has no more.
pub fn object(key: u32, s: &[u8], at: usize, places: &mut [usize]) -> Listed
    ensures { Judges key s.now at (inside_of 0x7d 8 (drop at s.now)) (judged_of result) × Finds s.now at places.new result }
{
    if s.len() <= 640 {
        return object_short(key, s, at, places);
    }
    let mut marks = [0u32; 820];
    object_in(key, s, at, &mut marks, places)
}

// The same where there are fewer marks to clear: a text of 640 bytes has no more than 128 names.
fn object_short(key: u32, s: &[u8], at: usize, places: &mut [usize]) -> Listed
    ensures { JudgesIn key 128 s.now at (inside_of 0x7d 8 (drop at s.now)) (judged_of result) × Finds s.now at places.new result }
{
    let mut marks = [0u32; 128];
    object_in(key, s, at, &mut marks, places)
}

fn object_in(key: u32, s: &[u8], at: usize, marks: &mut [u32], places: &mut [usize]) -> Listed
    ensures { JudgesIn key (length marks.old) s.now at (inside_of 0x7d 8 (drop at s.now)) (judged_of result) × Finds s.now at places.new result }
{
    let k = json_value::space(s, at);
    if s.len() <= k {
        return Listed::Bad;
    }
    if s[k] == b'}' {
        return Listed::End(k + 1, true, 0);
    }
    let mut i = k;
    let mut n = 0;
    let mut seen = Seen {
        count: 0,
        sure: true,
    };
    loop {
        let count = seen.count;
        let m = entry(key, s, i, LEVELS_INSIDE, b'}', &mut marks[count..]);
        note_place(places, n, i);
        n += 1;
        match m {
            Entered::Close(e, q) => {
                let t = note(marks, seen, mark_at(key, s, i, b'}'), q);
                return Listed::End(e, t.sure, all_or_none(n, places.len()));
            }
            Entered::Comma(e, q) => {
                seen = note(marks, seen, mark_at(key, s, i, b'}'), q);
                i = e;
            }
            Entered::Neither => return Listed::Bad,
        }
    }
}
