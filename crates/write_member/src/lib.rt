// The values that stand in written messages. Names and quotes are in the constant text that goes before a value or follows it.
#![tactic(auto)]

ghost use Rattle.std.specs.Prelude.{◌≡◌, [], ◌∷◌, min};
ghost use Rattle.basis.specs.Pick.{pick};
ghost use Rattle.calendar.specs.Text.{last_time};
ghost use Rattle.label.specs.Label.{text_of};
ghost use Rattle.output.specs.Put.{Wrote};
ghost use Rattle.write_member.specs.Member.{moment_text};

use label::Label;

pub fn label(out: &mut [u8], at: usize, l: Label) -> usize
    ensures { Wrote out.old at (text_of l ∷ []) out.new result }
{
    let n = label::size(l);
    let bytes = l.bytes;
    output::put_bytes(out, at, &bytes[0..n])
}

pub fn label_behind(out: &mut [u8], at: usize, before: &[u8], l: Label) -> usize
    ensures { Wrote out.old at (before.now ∷ text_of l ∷ []) out.new result }
{
    let end = output::put_bytes(out, at, before);
    label(out, end, l)
}

fn no_later(ms: u64) -> u64
    ensures { result ≡ min ms last_time }
{
    ms.min(answer::LAST_TIME)
}

// A time past the last one is written as the last one.
pub fn moment(out: &mut [u8], at: usize, ms: u64) -> usize
    ensures { Wrote out.old at (moment_text ms ∷ []) out.new result }
{
    let time = no_later(ms);
    calendar::put_time(out, at, time)
}

pub fn moment_behind(out: &mut [u8], at: usize, before: &[u8], ms: u64) -> usize
    ensures { Wrote out.old at (before.now ∷ moment_text ms ∷ []) out.new result }
{
    let end = output::put_bytes(out, at, before);
    moment(out, end, ms)
}

pub fn choice(out: &mut [u8], at: usize, test: bool, yes: &[u8], no: &[u8]) -> usize
    ensures { Wrote out.old at (pick test yes.now no.now ∷ []) out.new result }
{
    if test {
        output::put_bytes(out, at, yes)
    } else {
        output::put_bytes(out, at, no)
    }
}
