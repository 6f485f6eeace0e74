// The passing of time, in place: links that waited too long for an answer are closed, and subscriptions issue at their intervals.
#![tactic(auto)]

ghost use Rattle.std.specs.Prelude.{◌≡◌, length};
ghost use Rattle.table_whole.specs.declared.SiteTable.{SiteTable};
ghost use Rattle.site.specs.declared.Site.{Site};
ghost use Rattle.site.specs.Site.{with_issued};
ghost use Rattle.site.specs.Call.{batch_of};
ghost use Rattle.store_site.specs.Layout.{site_of, pool_words, site_words};
ghost use Rattle.store_site.specs.Turns.{Moves};
ghost use Rattle.store_call.specs.Called.{StepsIn};
ghost use Rattle.call_tick.specs.Closing.{mask_to};
ghost use Rattle.call_tick.specs.Tick.{site_after, tick_plan, tick_step};

use answer::{Answer, Refusal, Report};

mod closing; // closing.rt: each link with one awaited 30,000 ms or longer is closed
mod intervals; // intervals.rt: what the subscriptions issue, and the subscriptions after it

// All that a tick does; the links that it closes.
fn pass(p: &mut [u64], w: &mut [u64], time: u64) -> u16
    requires { (length p.old ≡ pool_words) × (length w.old ≡ site_words) }
    ensures { Moves (λ (s : Site). with_issued (site_after s time) (batch_of (tick_plan s time)) time) p.old p.new w.old w.new × ((t : SiteTable) → result ≡ mask_to (site_of p.old w.old t) time 4) }
{
    let closed = closing::close_all(p, w, time);
    intervals::issue_all(p, w, time);
    intervals::renew_all(w, time);
    store_site::parts::put_last(w, time);
    closed
}

pub fn tick(p: &mut [u64], w: &mut [u64], time: u64) -> Answer
    requires { (length p.old ≡ pool_words) × (length w.old ≡ site_words) }
    ensures { (t : SiteTable) → StepsIn t (tick_step (site_of p.old w.old t) time) p.old p.new w.old w.new result }
{
    if store_site::head::bad_time(w, time) {
        return Answer::Refused(Refusal::BadTime);
    }
    if store_call::spent(w, intervals::how_many(w, time)) {
        return Answer::Refused(Refusal::SequenceSpent);
    }
    let closed = pass(p, w, time);
    Answer::Done(Report {
        hint: 0,
        written: 0,
        closed,
        hinted: 0,
        commands: 0,
    })
}
