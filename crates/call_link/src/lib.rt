// Connect and disconnect, in place.
#![tactic(auto)]

ghost use Rattle.std.specs.Prelude.{◌≡◌, ℕ, ◌<◌, List, length};
ghost use Rattle.table_whole.specs.declared.SiteTable.{SiteTable};
ghost use Rattle.site.specs.declared.Site.{Site};
ghost use Rattle.site.specs.Site.{link_at, with_link, close_at};
ghost use Rattle.link.specs.Steps.{connect_of};
ghost use Rattle.store_site.specs.Layout.{site_of, with_last, pool_words, site_words};
ghost use Rattle.store_site.specs.Turns.{Turns, Moves};
ghost use Rattle.store_call.specs.Called.{StepsIn};
ghost use Rattle.call_link.specs.Connect.{connect_step, disconnect_step};

use answer::{Answer, Refusal, Report};

// The link is connected and the time kept.
fn joined(w: &mut [u64], l: usize, time: u64)
    requires { (length w.old ≡ site_words) × (l < 4) }
    ensures { Turns (λ (s : Site). with_last (with_link s l (connect_of (link_at s l))) time) w.old w.new }
{
    let k = store_site::parts::link(w, l);
    store_site::parts::put_link(w, l, k.connect());
    store_site::parts::put_last(w, time);
}

pub fn connect(w: &mut [u64], link: u32, time: u64) -> Answer
    requires { length w.old ≡ site_words }
    ensures { (ps : List ℕ) (t : SiteTable) → StepsIn t (connect_step (site_of ps w.old t) link time) ps ps w.old w.new result }
{
    if store_site::head::no_link(w, link) {
        return Answer::Refused(Refusal::NoSuchLink);
    }
    if store_site::head::bad_time(w, time) {
        return Answer::Refused(Refusal::BadTime);
    }
    let l = link as usize;
    if store_site::phases::down(w, l) {
        joined(w, l, time);
        return Answer::Done(site::nothing());
    }
    Answer::Refused(Refusal::WrongPhase)
}

// The link is closed and the time kept.
fn left(p: &mut [u64], w: &mut [u64], l: u16, time: u64)
    requires { (length p.old ≡ pool_words) × ((length w.old ≡ site_words) × (l < 4)) }
    ensures { Moves (λ (s : Site). with_last (close_at s l) time) p.old p.new w.old w.new }
{
    store_call::close(p, w, l);
    store_site::parts::put_last(w, time);
}

pub fn disconnect(p: &mut [u64], w: &mut [u64], link: u32, time: u64) -> Answer
    requires { (length p.old ≡ pool_words) × (length w.old ≡ site_words) }
    ensures { (t : SiteTable) → StepsIn t (disconnect_step (site_of p.old w.old t) link time) p.old p.new w.old w.new result }
{
    if store_site::head::no_link(w, link) {
        return Answer::Refused(Refusal::NoSuchLink);
    }
    if store_site::head::bad_time(w, time) {
        return Answer::Refused(Refusal::BadTime);
    }
    if store_site::phases::down(w, link as usize) {
        return Answer::Refused(Refusal::WrongPhase);
    }
    let l = link as u16;
    left(p, w, l, time);
    let report = Report {
        hint: 0,
        written: 0,
        closed: site::bit_of(l),
        hinted: 0,
        commands: 0,
    };
    Answer::Done(report)
}
