// What an input does where nothing refuses it but its records: they are counted, and only then is something changed.
ghost use Rattle.std.specs.Prelude.{◌≡◌, length};
ghost use Rattle.table_whole.specs.declared.SiteTable.{SiteTable};
ghost use Rattle.site.specs.declared.Site.{Site};
ghost use Rattle.site.specs.Site.{with_aggregated};
ghost use Rattle.site.specs.Parts.{with_alarm, with_status};
ghost use Rattle.store_site.specs.Layout.{site_of, with_last, pool_words, site_words};
ghost use Rattle.store_site.specs.Turns.{Moves};
ghost use Rattle.store_call.specs.Called.{StepsIn};
ghost use Rattle.store_call.specs.Issued.{issued_in};
ghost use Rattle.call_input.specs.Inputs.{planned, alarm_entries, alarm_plan, status_entries, status_plan, aggregated_entries, aggregated_plan};

use super::records;
use alarm::Changed;
use answer::{Answer, Refusal};

fn change_alarm(p: &mut [u64], w: &mut [u64], c: Changed, number: u16, time: u64)
    requires { (length p.old ≡ pool_words) × (length w.old ≡ site_words) }
    ensures { Moves (λ (s : Site). with_last (issued_in (with_alarm s number c.alarm) (alarm_entries s number c)) time) p.old p.new w.old w.new }
{
    store_site::items::put_alarm(w, number as usize, c.alarm);
    store_call::records::add_alarm(p, w, c, number);
    store_site::parts::put_last(w, time);
}

pub fn alarm(p: &mut [u64], w: &mut [u64], number: u16, active: bool, time: u64) -> Answer
    requires { (length p.old ≡ pool_words) × (length w.old ≡ site_words) }
    ensures { (t : SiteTable) → StepsIn t (planned (site_of p.old w.old t) time (alarm_plan (site_of p.old w.old t) number active time)) p.old p.new w.old w.new result }
{
    let before = store_site::items::alarm(w, number as usize);
    let c = before.input(active, time);
    if store_call::spent(w, store_call::records::of_alarm(w, c)) {
        return Answer::Refused(Refusal::SequenceSpent);
    }
    change_alarm(p, w, c, number, time);
    Answer::Done(site::nothing())
}

fn change_status(p: &mut [u64], w: &mut [u64], x: status::Set, number: u16, time: u64)
    requires { (length p.old ≡ pool_words) × (length w.old ≡ site_words) }
    ensures { Moves (λ (s : Site). with_last (issued_in (with_status s number x.status) (status_entries s number x time)) time) p.old p.new w.old w.new }
{
    store_site::items::put_status(w, number as usize, x.status);
    records::add_statuses(p, w, x, number, time);
    store_site::parts::put_last(w, time);
}

pub fn status(p: &mut [u64], w: &mut [u64], number: u16, value: i32, time: u64) -> Answer
    requires { (length p.old ≡ pool_words) × (length w.old ≡ site_words) }
    ensures { (t : SiteTable) → StepsIn t (planned (site_of p.old w.old t) time (status_plan (site_of p.old w.old t) number value time)) p.old p.new w.old w.new result }
{
    let before = store_site::items::status(w, number as usize);
    let x = before.set(value);
    if store_call::spent(w, records::of_status(w, x, number)) {
        return Answer::Refused(Refusal::SequenceSpent);
    }
    change_status(p, w, x, number, time);
    Answer::Done(site::nothing())
}

fn change_aggregated(p: &mut [u64], w: &mut [u64], x: aggregated::Set, time: u64)
    requires { (length p.old ≡ pool_words) × (length w.old ≡ site_words) }
    ensures { Moves (λ (s : Site). with_last (issued_in (with_aggregated s x.aggregated) (aggregated_entries s x)) time) p.old p.new w.old w.new }
{
    store_site::head::put_aggregated(w, x.aggregated);
    records::add_aggregated(p, w, x);
    store_site::parts::put_last(w, time);
}

pub fn aggregated(p: &mut [u64], w: &mut [u64], value: u8, time: u64) -> Answer
    requires { (length p.old ≡ pool_words) × (length w.old ≡ site_words) }
    ensures { (t : SiteTable) → StepsIn t (planned (site_of p.old w.old t) time (aggregated_plan (site_of p.old w.old t) value time)) p.old p.new w.old w.new result }
{
    let before = store_site::head::aggregated(w);
    let x = before.set(value, time);
    if store_call::spent(w, records::of_aggregated(w, x)) {
        return Answer::Refused(Refusal::SequenceSpent);
    }
    change_aggregated(p, w, x, time);
    Answer::Done(site::nothing())
}
