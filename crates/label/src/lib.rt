// The strings of the site table: 1 to 32 bytes of its alphabet, kept in place.
#![tactic(auto)]

ghost use Rattle.std.specs.Prelude.{◌≡◌, min, take};
ghost use Rattle.basis.specs.Lists.{same_bytes};
ghost use Rattle.label.specs.Label.{label_of, no_label, text_of};
ghost use Rattle.label.specs.Reading.{missed as missed_of, read_at};

// A text of at most 32 bytes, with zeros behind it.
#[repr(C)]
#[derive(Clone, Copy)]
pub struct Label {
    pub bytes: [u8; 32],
    pub length: u8,
}

// A label that was read, and the place behind it.
#[derive(Clone, Copy)]
pub struct LabelRead {
    pub label: Label,
    pub next: usize,
}

// A place behind every table's end: nothing is read there.
pub const FAR: usize = 8192;

pub fn none() -> Label
    ensures { result ≡ no_label }
{
    Label {
        bytes: [0u8; 32],
        length: 0,
    }
}

// The first 32 bytes of s.
pub fn of(s: &[u8]) -> Label
    ensures { result ≡ label_of (take 32 s.now) }
{
    let n = s.len().min(32);
    let mut bytes = [0u8; 32];
    bytes[..n].copy_from_slice(&s[..n]);
    Label {
        bytes,
        length: n as u8,
    }
}

// How many of its bytes are its text.
pub fn size(l: Label) -> usize
    ensures { result ≡ min l.length 32 }
{
    usize::from(l.length).min(32)
}

// Whether the label is this text, byte for byte.
pub fn is(l: Label, s: &[u8]) -> bool
    ensures { result ≡ same_bytes (text_of l) s.now }
{
    let n = size(l);
    let bytes = l.bytes;
    &bytes[..n] == s
}

// No string stands there.
fn missed() -> LabelRead
    ensures { result ≡ missed_of }
{
    LabelRead {
        label: none(),
        next: FAR,
    }
}

// The string that stands at a place: a length byte and that many bytes.
pub fn read(s: &[u8], at: usize) -> LabelRead
    ensures { result ≡ read_at s.now at }
{
    if s.len() <= at {
        return missed();
    }
    let n = usize::from(s[at]);
    let from = at + 1;
    if s.len() - from < n {
        return missed();
    }
    let end = from + n;
    if number::is_label(&s[from..end]) {
        LabelRead {
            label: of(&s[from..end]),
            next: end,
        }
    } else {
        missed()
    }
}
