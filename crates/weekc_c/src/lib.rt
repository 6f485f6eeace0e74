// What C calls: the functions of `weekc`, with their contracts, under the names of rsmp_week.h.
#![tactic(auto)]

ghost use Rattle.weekc.specs.Calls.{Begins, Feeds, Tells};

use weekc::{Fed, Told};

// A stream begins: nothing is counted.
#[unsafe(no_mangle)]
pub extern "C" fn rsmp_week_begin(w: &mut [u64]) -> u32
    ensures { Begins w.old w.new result }
{
    weekc::rsmp_week_begin(w)
}

// A piece of the stream. `used` is 0 at its beginning, and then what the call before answered.
#[unsafe(no_mangle)]
pub extern "C" fn rsmp_week_feed(w: &mut [u64], held: &mut [u8], used: u32, piece: &[u8]) -> Fed
    ensures { Feeds w.old held.old used piece.now w.new held.new result }
{
    weekc::rsmp_week_feed(w, held, used, piece)
}

// The report of what was fed so far.
#[unsafe(no_mangle)]
pub extern "C" fn rsmp_week_report(w: &[u64], out: &mut [u8]) -> Told
    ensures { Tells w.now out.old out.new result }
{
    weekc::rsmp_week_report(w, out)
}
