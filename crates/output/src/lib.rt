// Bytes into a lent output, from its present end.
#![tactic(auto)]

ghost use Rattle.std.specs.Prelude.{[], ◌∷◌};
ghost use Rattle.output.specs.Put.{Wrote};

// Writes b into out from at on and answers the index behind it. Where b does not fit, nothing is written and the answer is out.len() + 1.
pub fn put_bytes(out: &mut [u8], at: usize, b: &[u8]) -> usize
    ensures { Wrote out.old at (b.now ∷ []) out.new result }
{
    if out.len() < at {
        return out.len() + 1;
    }
    if out.len() - at < b.len() {
        return out.len() + 1;
    }
    for (k, byte) in b.iter().enumerate() {
        out[at + k] = *byte;
    }
    at + b.len()
}

pub fn put2(out: &mut [u8], at: usize, a: &[u8], b: &[u8]) -> usize
    ensures { Wrote out.old at (a.now ∷ b.now ∷ []) out.new result }
{
    let end = put_bytes(out, at, a);
    put_bytes(out, end, b)
}
