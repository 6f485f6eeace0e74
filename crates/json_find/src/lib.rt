// Places in a JSON text: strings compared, the entries of an object or array one after another, a member by its name.
#![tactic(auto)]

ghost use Rattle.std.specs.Prelude.{◌≡◌, drop};
ghost use Rattle.json_text.specs.Ends.{Ends};
ghost use Rattle.json_find.specs.Kinds.{string_at};
ghost use Rattle.json_value.specs.Reader.{skip_ws};
ghost use Rattle.json_find.specs.Entries.{next_entry, entries, inside_at, first_named, member_at};
ghost use Rattle.json_find.specs.Index.{texts_at, Indexed};
ghost use Rattle.basis.specs.Pick.{pick};
ghost use Rattle.json_find.specs.Four.{or_else, with_entry, nothing, Follows, TurnAt, FindsFour};

use json_text::Read;
use json_value::Mark;

// The places of the values of four names in an object, and where the object ends.
#[derive(Clone, Copy)]
pub struct FourFound {
    pub first: Read,
    pub second: Read,
    pub third: Read,
    pub fourth: Read,
    pub end: Read,
}

// The value's place of an object's entry, with where the object ends or where the next entry begins.
#[derive(Clone, Copy)]
pub enum Turn {
    Last(usize, usize),
    Next(usize, usize),
    Stop,
}

// Whether the value at a place is a string that is `fixed` after decoding.
#[tactic(auto, using(crate::proofs::Steps::string_steps))]
#[inline(always)]
fn is_string(s: &[u8], at: usize, fixed: &[u8]) -> bool
    ensures { result ≡ string_at fixed.now (drop at s.now) }
{
    s.get(at) == Some(&b'"') && json_text::is_name(s, at + 1, fixed)
}

// The place of the first entry of what begins with `first`, unless `close` follows.
#[tactic(auto, using(crate::proofs::Walks::inside_steps))]
pub fn inside(s: &[u8], at: usize, first: u8, close: u8) -> Read
    ensures { Ends s.now at (inside_at first close (drop at s.now)) result }
{
    if s.len() <= at || s[at] != first {
        return Read::Bad;
    }
    let k = json_value::space(s, at + 1);
    if s.len() <= k || s[k] == close {
        return Read::Bad;
    }
    Read::End(at + 1)
}

// The place of the entry after the one at a place. The entries of a value of eight levels have seven.
#[tactic(auto, using(crate::proofs::Walks::step_steps))]
pub fn step(s: &[u8], at: usize, close: u8) -> Read
    ensures { Ends s.now at (next_entry close (drop at s.now)) result }
{
    match json_value::entry(s, at, 7, close) {
        Mark::Comma(n) => Read::End(n),
        Mark::Close(_) | Mark::Neither => Read::Bad,
    }
}

// The same where the end of the entry's value is known.
#[tactic(auto, using(crate::proofs::Once::after_steps))]
pub fn step_from(s: &[u8], end: Read, close: u8) -> Read
    ensures { Follows s.now close end result }
{
    let Read::End(e) = end else {
        return Read::Bad;
    };
    match json_value::after(s, e, close) {
        Mark::Comma(n) => Read::End(n),
        Mark::Close(_) | Mark::Neither => Read::Bad,
    }
}

// The value's place of the first entry from the one at a place on that has a name.
#[tactic(auto, using(crate::proofs::Steps::seek_steps))]
fn seek(s: &[u8], at: usize, name: &[u8]) -> Read
    ensures { Ends s.now at (first_named name.now (entries 0x7d (drop at s.now))) result }
{
    let mut i = at;
    loop {
        if is_string(s, json_value::space(s, i), name) {
            return json_value::start(s, i, b'}');
        }
        let Read::End(e) = step(s, i, b'}') else {
            return Read::Bad;
        };
        i = e;
    }
}

// The place of the value of the member with a name, of the object at a place.
#[tactic(auto, using(crate::proofs::Steps::member_steps))]
pub fn member(s: &[u8], at: usize, name: &[u8]) -> Read
    ensures { Ends s.now at (member_at name.now (drop at s.now)) result }
{
    let Read::End(i) = inside(s, at, b'{', b'}') else {
        return Read::Bad;
    };
    seek(s, i, name)
}

// The value's place of the first of the entries at noted places that has a name.
#[tactic(auto, using(crate::proofs::Noted::among_steps))]
fn among(s: &[u8], places: &[usize], name: &[u8]) -> Read
    ensures { Ends s.now 0 (first_named name.now (texts_at s.now places.now)) result }
{
    for at in places {
        if is_string(s, json_value::space(s, *at), name) {
            return json_value::start(s, *at, b'}');
        }
    }
    Read::Bad
}

// The place of the value of the member with a name, of the packet's object, whose entries' places may be noted.
#[tactic(auto, using(crate::proofs::Noted::noted_steps))]
pub fn member_of(s: &[u8], places: &[usize], name: &[u8]) -> Read
    requires { Indexed s.now places.now }
    ensures { Ends s.now 0 (member_at name.now (skip_ws s.now)) result }
{
    if places.is_empty() {
        return member(s, json_value::space(s, 0), name);
    }
    among(s, places, name)
}

// Each of four names looked up for itself, and the end read for itself.
fn each_alone(
    s: &[u8],
    at: usize,
    first: &[u8],
    second: &[u8],
    third: &[u8],
    fourth: &[u8],
) -> FourFound
    ensures { FindsFour s.now at first.now second.now third.now fourth.now result }
{
    FourFound {
        first: member(s, at, first),
        second: member(s, at, second),
        third: member(s, at, third),
        fourth: member(s, at, fourth),
        end: json_value::value(s, at, 7),
    }
}

// The entry at a place of an object that has seven levels.
#[tactic(auto, using(crate::proofs::Once::turn_steps))]
fn take_turn(s: &[u8], at: usize) -> Turn
    ensures { TurnAt s.now at result }
{
    let Read::End(v) = json_value::start(s, at, b'}') else {
        return Turn::Stop;
    };
    let Read::End(e) = json_value::value(s, v, 6) else {
        return Turn::Stop;
    };
    match json_value::after(s, e, b'}') {
        Mark::Close(n) => Turn::Last(v, n),
        Mark::Comma(n) => Turn::Next(v, n),
        Mark::Neither => Turn::Stop,
    }
}

// What was found before, or else the value's place of an entry that has the name.
fn or_else(found: Read, s: &[u8], at: usize, v: usize, name: &[u8]) -> Read
    ensures { result ≡ or_else found (pick (string_at name.now (drop at s.now)) (Read.End v) Read.Bad) }
{
    match found {
        Read::Bad if is_string(s, at, name) => Read::End(v),
        _ => found,
    }
}

// What is found with the entry at a place, whose value begins at v.
fn with_entry(
    found: FourFound,
    s: &[u8],
    at: usize,
    v: usize,
    first: &[u8],
    second: &[u8],
    third: &[u8],
    fourth: &[u8],
    end: Read,
) -> FourFound
    ensures { result ≡ with_entry found (drop at s.now) v first.now second.now third.now fourth.now end }
{
    let k = json_value::space(s, at);
    let a = found.first;
    let b = found.second;
    let c = found.third;
    let d = found.fourth;
    FourFound {
        first: or_else(a, s, k, v, first),
        second: or_else(b, s, k, v, second),
        third: or_else(c, s, k, v, third),
        fourth: or_else(d, s, k, v, fourth),
        end,
    }
}

fn nothing_yet() -> FourFound
    ensures { result ≡ nothing }
{
    FourFound {
        first: Read::Bad,
        second: Read::Bad,
        third: Read::Bad,
        fourth: Read::Bad,
        end: Read::Bad,
    }
}

// The places of the values of four names in the object at a place, and its end, in one walk.
#[tactic(auto, using(crate::proofs::Once::walk_steps))]
pub fn four(
    s: &[u8],
    at: usize,
    first: &[u8],
    second: &[u8],
    third: &[u8],
    fourth: &[u8],
) -> FourFound
    ensures { FindsFour s.now at first.now second.now third.now fourth.now result }
{
    let Read::End(start) = inside(s, at, b'{', b'}') else {
        return each_alone(s, at, first, second, third, fourth);
    };
    let mut found = nothing_yet();
    let mut i = start;
    loop {
        match take_turn(s, i) {
            Turn::Last(v, e) => return with_entry(
                found,
                s,
                i,
                v,
                first,
                second,
                third,
                fourth,
                Read::End(e),
            ),
            Turn::Next(v, n) => {
                found = with_entry(found, s, i, v, first, second, third, fourth, Read::Bad);
                i = n;
            }
            Turn::Stop => return each_alone(s, at, first, second, third, fourth),
        }
    }
}
