// The call pump, in place: sends the next due message of a link, one at most. The pool lies in the words p, the site in the words w, its table in the bytes t.
#![tactic(auto)]

ghost use Rattle.std.specs.Prelude.{◌≡◌, length};
ghost use Rattle.identity.specs.Version.{identity_of};
ghost use Rattle.store_site.specs.Layout.{site_of, pool_words, site_words};
ghost use Rattle.store_table.specs.Layout.{table_of, table_bytes};
ghost use Rattle.store_call.specs.Called.{GivesIn};
ghost use Rattle.call_pump.specs.Pump.{pump_refuses, pump_plan};

use answer::Answer;
use identity::Identity;

mod checks; // checks.rt: what is due, and what refuses the call
mod send; // send.rt: the due message written, and the change

pub fn pump(
    p: &mut [u64],
    w: &mut [u64],
    t: &[u8],
    link: u32,
    time: u64,
    random: Identity,
    out: &mut [u8],
) -> Answer
    requires { (length p.old ≡ pool_words) × ((length w.old ≡ site_words) × (length t.now ≡ table_bytes)) }
    ensures { GivesIn (table_of t.now) time (pump_refuses (site_of p.old w.old (table_of t.now)) link time (identity_of random) (length out.old)) (pump_plan (site_of p.old w.old (table_of t.now)) link time (identity_of random)) p.old p.new w.old w.new out.old out.new result }
{
    let id = checks::own_identity(random);
    match checks::verdict(p, w, t, link, time, id, out.len()) {
        Answer::Refused(why) => Answer::Refused(why),
        Answer::Done(_) => send::due(p, w, t, link as u16, time, id, out),
    }
}
