// The names of types and reasons: one table of bytes with starts and lengths, which readers and writers cite.
#![tactic(auto)]

ghost use Rattle.std.specs.Prelude.{◌≡◌, [], ◌∷◌, ℕ, ◌+◌, ◌-◌, ◌≤◌, ◌<◌};
ghost use Rattle.basis.specs.Lists.{same_bytes};
ghost use Rattle.output.specs.Put.{Wrote};
ghost use Rattle.names.specs.Names.{name_of, find_in, find_type};
ghost use Rattle.names.specs.Table.{Lent};

mod table; // table.rt: the bytes of all names, and where each stands
pub mod types; // types.rt: the eighteen types of messages
pub mod reasons; // reasons.rt: the twelve reasons of a MessageNotAck

#[derive(Clone, Copy)]
pub enum Found {
    At(usize),
    Nothing,
}

// Writes name i.
pub fn put(out: &mut [u8], at: usize, i: usize) -> usize
    ensures { Wrote out.old at (name_of i ∷ []) out.new result }
{
    let s = table::span_of(i);
    let start = s.start;
    let end = s.end;
    output::put_bytes(out, at, &table::TABLE[start..end])
}

// Whether s is name i, where the table is lent: a constant is made anew wherever it is named, so that who tries many names lends it once.
fn is_name_in(s: &[u8], i: usize, bytes: &[u8], starts: &[u16], lengths: &[u8]) -> bool
    requires { Lent bytes.now starts.now lengths.now }
    ensures { result ≡ same_bytes s.now (name_of i) }
{
    if lengths.len() <= i {
        return s.is_empty();
    }
    let start = usize::from(starts[i]);
    let end = start + usize::from(lengths[i]);
    s == &bytes[start..end]
}

fn find_in(
    s: &[u8],
    first: usize,
    end: usize,
    bytes: &[u8],
    starts: &[u16],
    lengths: &[u8],
) -> Found
    requires { Lent bytes.now starts.now lengths.now }
    ensures { result ≡ find_in s.now first (end - first) }
{
    for i in first..end {
        if is_name_in(s, i, bytes, starts, lengths) {
            return Found::At(i);
        }
    }
    Found::Nothing
}

// The first of the names from first to before end that s is.
pub fn find(s: &[u8], first: usize, end: usize) -> Found
    ensures { result ≡ find_in s.now first (end - first) }
{
    find_in(s, first, end, &table::TABLE, &table::STARTS, &table::LENS)
}

// The type that s names.
pub fn find_type(s: &[u8]) -> Found
    ensures { result ≡ find_type s.now }
{
    find(s, 0, types::END)
}
