// RSMP versions: their texts, and the three checks of a Version message.
#![tactic(auto)]

ghost use Rattle.std.specs.Prelude.{◌≡◌, take};
ghost use Rattle.read_versions.specs.Numeral.{number_in};
ghost use Rattle.read_versions.specs.Version.{behind, rest_of, one_part, two_parts, version_of};
ghost use Rattle.read_versions.specs.Judge.{same_label, has as has_of, later as later_of, shared as shared_of, latest as latest_of, lists as lists_of, meet as meet_of, judge as judge_of};
ghost use Rattle.read_versions.specs.Dot.{Dot};

use label::Label;
use number::Number;

// At most sixteen versions, each as one number.
#[repr(C)]
#[derive(Clone, Copy)]
pub struct Versions {
    pub count: usize,
    pub list: [u32; 16],
}

// At most sixteen site ids.
#[repr(C)]
#[derive(Clone, Copy)]
pub struct Sites {
    pub count: usize,
    pub list: [Label; 16],
}

// What a Version message offers.
#[repr(C)]
#[derive(Clone, Copy)]
pub struct Offer {
    pub versions: Versions,
    pub sites: Sites,
    pub sxl: Label,
}

#[derive(Clone, Copy)]
pub enum Judged {
    Chosen(u32),
    RsmpVersion,
    SiteId,
    SxlVersion,
}

// The place of the first dot, or the end.
fn dot(s: &[u8]) -> usize
    ensures { Dot s.now result }
{
    for (i, b) in s.iter().enumerate() {
        if *b == b'.' {
            return i;
        }
    }
    s.len()
}

// The number from 0 to the limit whose shortest decimal text is s.
pub fn numeral(s: &[u8], limit: u32) -> Number
    ensures { result ≡ number_in limit s.now }
{
    number::read_decimal(s, limit)
}

fn one_part(s: &[u8]) -> Number
    ensures { result ≡ one_part s.now }
{
    let e = dot(s);
    if e < s.len() {
        return Number::No;
    }
    numeral(&s[0..e], 255)
}

// What follows the dot at a place, if it is one.
fn one_rest(s: &[u8], e: usize) -> Number
    requires { Dot s.now e }
    ensures { result ≡ rest_of one_part (behind s.now) }
{
    if s.len() <= e {
        return Number::Is(0);
    }
    let from = e + 1;
    one_part(&s[from..])
}

fn two_parts(s: &[u8]) -> Number
    ensures { result ≡ two_parts s.now }
{
    let e = dot(s);
    let first = numeral(&s[0..e], 255);
    let rest = one_rest(s, e);
    match first {
        Number::Is(a) => match rest {
            Number::Is(n) => Number::Is(a * 256 + n),
            Number::No => Number::No,
        },
        Number::No => Number::No,
    }
}

fn two_rest(s: &[u8], e: usize) -> Number
    requires { Dot s.now e }
    ensures { result ≡ rest_of two_parts (behind s.now) }
{
    if s.len() <= e {
        return Number::Is(0);
    }
    let from = e + 1;
    two_parts(&s[from..])
}

// The version that s writes.
pub fn read_version(s: &[u8]) -> Number
    ensures { result ≡ version_of s.now }
{
    let e = dot(s);
    let first = numeral(&s[0..e], 255);
    let rest = two_rest(s, e);
    match first {
        Number::Is(a) => match rest {
            Number::Is(n) => Number::Is(a * 65536 + n),
            Number::No => Number::No,
        },
        Number::No => Number::No,
    }
}

impl Versions {
    // Those that are there.
    fn known(&self) -> &[u32]
        ensures { result.now ≡ take self.now.count self.now.list }
    {
        &self.list[..self.count.min(16)]
    }

    fn has(&self, n: u32) -> bool
        ensures { result ≡ has_of (take self.now.count self.now.list) n }
    {
        self.known().contains(&n)
    }
}

impl Sites {
    // Those that are there.
    fn known(&self) -> &[Label]
        ensures { result.now ≡ take self.now.count self.now.list }
    {
        &self.list[..self.count.min(16)]
    }

    fn lists(&self, l: Label) -> bool
        ensures { result ≡ lists_of (take self.now.count self.now.list) l }
    {
        self.known().iter().any(|x| same_label(*x, l))
    }

    // Whether some id is in both.
    fn meets(&self, theirs: &Sites) -> bool
        ensures { result ≡ meet_of (take self.now.count self.now.list) (take theirs.now.count theirs.now.list) }
    {
        self.known().iter().any(|l| theirs.lists(*l))
    }
}

fn shared(theirs: &Versions, n: u32) -> Number
    ensures { result ≡ shared_of (take theirs.now.count theirs.now.list) n }
{
    if theirs.has(n) {
        Number::Is(n)
    } else {
        Number::No
    }
}

fn later(a: Number, b: Number) -> Number
    ensures { result ≡ later_of a b }
{
    match a {
        Number::Is(x) => match b {
            Number::Is(y) => {
                if x < y {
                    return Number::Is(y);
                }
                Number::Is(x)
            }
            Number::No => Number::Is(x),
        },
        Number::No => b,
    }
}

fn latest(own: &Versions, theirs: &Versions) -> Number
    ensures { result ≡ latest_of (take own.now.count own.now.list) (take theirs.now.count theirs.now.list) }
{
    let mut best = Number::No;
    for n in own.known() {
        best = later(best, shared(theirs, *n));
    }
    best
}

fn same_label(a: Label, b: Label) -> bool
    ensures { result ≡ same_label a b }
{
    let n = label::size(b);
    let bytes = b.bytes;
    label::is(a, &bytes[0..n])
}

// Whether what they offer is accepted, and which version is chosen.
#[tactic(auto, unfolding(crate::specs::Judge::judge))]
pub fn judge(own: Offer, theirs: Offer) -> Judged
    ensures { result ≡ judge_of own theirs }
{
    match latest(&own.versions, &theirs.versions) {
        Number::No => Judged::RsmpVersion,
        Number::Is(v) => {
            if !own.sites.meets(&theirs.sites) {
                return Judged::SiteId;
            }
            if !same_label(own.sxl, theirs.sxl) {
                return Judged::SxlVersion;
            }
            Judged::Chosen(v)
        }
    }
}
