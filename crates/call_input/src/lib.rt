// The host's three inputs, in place: an alarm's, a status' value, the aggregated value.
#![tactic(auto)]

ghost use Rattle.std.specs.Prelude.{◌≡◌, length};
ghost use Rattle.table_whole.specs.declared.SiteTable.{SiteTable};
ghost use Rattle.store_table.specs.Layout.{table_of, table_bytes};
ghost use Rattle.store_site.specs.Layout.{site_of, pool_words, site_words};
ghost use Rattle.store_call.specs.Called.{StepsIn};
ghost use Rattle.call_input.specs.Inputs.{alarm_step, status_step, aggregated_step};

use answer::{Answer, Refusal};

mod doing; // doing.rt: what an input does where nothing refuses it but its records
mod records; // records.rt: the records that a value issues

// An alarm is active or not.
pub fn alarm(p: &mut [u64], w: &mut [u64], t: &[u8], number: u32, active: bool, time: u64) -> Answer
    requires { (length p.old ≡ pool_words) × ((length w.old ≡ site_words) × (length t.now ≡ table_bytes)) }
    ensures { StepsIn (table_of t.now) (alarm_step (site_of p.old w.old (table_of t.now)) number active time) p.old p.new w.old w.new result }
{
    if (store_table::alarm_count(t) as u32) <= number {
        return Answer::Refused(Refusal::NoSuchItem);
    }
    if store_site::head::bad_time(w, time) {
        return Answer::Refused(Refusal::BadTime);
    }
    doing::alarm(p, w, number as u16, active, time)
}

// A status has a value.
pub fn status(p: &mut [u64], w: &mut [u64], t: &[u8], number: u32, value: i32, time: u64) -> Answer
    requires { (length p.old ≡ pool_words) × ((length w.old ≡ site_words) × (length t.now ≡ table_bytes)) }
    ensures { StepsIn (table_of t.now) (status_step (site_of p.old w.old (table_of t.now)) number value time) p.old p.new w.old w.new result }
{
    if (store_table::status_count(t) as u32) <= number {
        return Answer::Refused(Refusal::NoSuchItem);
    }
    if store_site::head::bad_time(w, time) {
        return Answer::Refused(Refusal::BadTime);
    }
    doing::status(p, w, number as u16, value, time)
}

// The aggregated status is these eight booleans, the first highest.
pub fn aggregated(p: &mut [u64], w: &mut [u64], value: u8, time: u64) -> Answer
    requires { (length p.old ≡ pool_words) × (length w.old ≡ site_words) }
    ensures { (t : SiteTable) → StepsIn t (aggregated_step (site_of p.old w.old t) value time) p.old p.new w.old w.new result }
{
    if store_site::head::bad_time(w, time) {
        return Answer::Refused(Refusal::BadTime);
    }
    doing::aggregated(p, w, value, time)
}
