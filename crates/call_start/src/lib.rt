// Start: a site, from the site table's bytes and the values of the host, in words and bytes that the host lends. Of the pool, what its owners held goes.
#![tactic(auto)]

ghost use Rattle.std.specs.Prelude.{◌<◌, ◌≡◌, true, ltb, length, replicate};
ghost use Rattle.basis.specs.Pick.{pick};
ghost use Rattle.pool.specs.declared.Pool.{Pool};
ghost use Rattle.pool.specs.Pool.{empty_of};
ghost use Rattle.subscription.specs.Subscription.{none};
ghost use Rattle.alarm.specs.Alarm.{beginning};
ghost use Rattle.status.specs.Status.{unknown};
ghost use Rattle.table_whole.specs.declared.SiteTable.{SiteTable};
ghost use Rattle.site.specs.declared.Site.{Site};
ghost use Rattle.site.specs.Site.{with_subscriptions, with_alarms, with_statuses};
ghost use Rattle.store_site.specs.Turns.{Turns};
ghost use Rattle.store_whole.specs.Image.{words_of};
ghost use Rattle.call_start.specs.Fresh.{site_for, cleared_for, pool_for, fresh, primary_of};
ghost use Rattle.call_start.specs.Making.{a_site_or_alone, a_link_or_none, values_within, others_within, is_within, judged_by};
ghost use Rattle.call_start.specs.Begun.{Begun, StartsIn};
ghost use Rattle.store_site.specs.Layout.{pool_in, pool_words, site_words};
ghost use Rattle.store_table.specs.Layout.{table_bytes};

use aggregated::Aggregated;
use alarm::Alarm;
use answer::{Answer, Refusal};
use link::Link;
use pool::Pool;
use status::Status;
use subscription::Subscription;
use table_whole::{SiteTable, Verdict};

// There is no primary where it is 4294967295.
fn primary_of(primary: u32) -> u16
    ensures { result ≡ primary_of primary }
{
    if primary < 4 { primary as u16 } else { 65535 }
}

// Alone it is site 0.
fn site_of(site: u32) -> u16
    ensures { result ≡ pick (ltb site 2) site 0 }
{
    if site < 2 { site as u16 } else { 0 }
}

fn a_site_or_alone(site: u32) -> bool
    ensures { result ≡ a_site_or_alone site }
{
    site < 2 || site == 4294967295
}

fn a_link_or_none(links: u32, primary: u32) -> bool
    ensures { result ≡ a_link_or_none links primary }
{
    primary < links || primary == 4294967295
}

#[tactic(auto, unfolding(crate::specs::Making::values_within))]
fn values_within(period: u32, first: u64, time: u64) -> bool
    ensures { result ≡ values_within period first time }
{
    1 <= period && period <= 3600 && first <= 2147483647 && time <= answer::LAST_TIME
}

fn others_within(links: u32, primary: u32, period: u32, first: u64, time: u64) -> bool
    ensures { result ≡ others_within links primary period first time }
{
    1 <= links && links <= 4 && a_link_or_none(links, primary) && values_within(period, first, time)
}

#[tactic(auto, unfolding(crate::specs::Making::is_within))]
fn within(site: u32, links: u32, primary: u32, period: u32, first: u64, time: u64) -> bool
    ensures { result ≡ is_within site links primary period first time }
{
    a_site_or_alone(site) && others_within(links, primary, period, first, time)
}

// Nothing held, nothing lost.
fn empty_pool(p: &mut [u64])
    requires { length p.old ≡ pool_words }
    ensures { pool_in p.new ≡ empty_of 8 }
{
    let pool = Pool::empty();
    store_whole::lists::put_places(p, pool.places);
    store_whole::lists::put_lost(p, pool.lost);
}

// The four owners of the site begin anew.
fn clear_site(p: &mut [u64], site: u16)
    requires { (length p.old ≡ pool_words) × (site < 2) }
    ensures { pool_in p.new ≡ cleared_for site (pool_in p.old) }
{
    let first = 4 * site;
    store_pool::change::clear(p, first);
    store_pool::change::clear(p, first + 1);
    store_pool::change::clear(p, first + 2);
    store_pool::change::clear(p, first + 3);
}

fn begin_pool(p: &mut [u64], site: u32)
    requires { (length p.old ≡ pool_words) × (a_site_or_alone site ≡ true) }
    ensures { pool_in p.new ≡ pool_for site (pool_in p.old) }
{
    if site < 2 {
        clear_site(p, site as u16);
        return;
    }
    empty_pool(p);
}

// Nothing subscribed, nothing known, every alarm as at the start time.
fn begin_items(w: &mut [u64], time: u64)
    requires { length w.old ≡ site_words }
    ensures { Turns (λ (s : Site). with_statuses (with_alarms (with_subscriptions s (replicate 128 none)) (replicate 32 (beginning time))) (replicate 32 unknown)) w.old w.new }
{
    store_whole::lists::fill_subscriptions(w, Subscription::none());
    store_whole::lists::fill_alarms(w, Alarm::begin(time));
    store_whole::lists::fill_statuses(w, Status::unknown());
}

// Every word is stored: what it was does not matter, and the pool's words are not told.
fn put_fresh(w: &mut [u64], site: u16, links: u16, primary: u16, period: u32, first: u64, time: u64)
    requires { (length w.old ≡ site_words) × ((site < 2) × (period < 2147483648)) }
    ensures { (q : Pool) (t : SiteTable) → w.new ≡ words_of (fresh q site t links primary period first time) }
{
    let changed = Aggregated::begin(time);
    store_whole::put_head(w, first, time, site, period, links, primary, changed);
    begin_items(w, time);
    store_whole::lists::fill_links(w, Link::closed());
}

// The table is stored, the site that it begins with, and its owners are cleared.
fn begin(
    p: &mut [u64],
    w: &mut [u64],
    t: &mut [u8],
    table: &SiteTable,
    site: u32,
    links: u16,
    primary: u16,
    period: u32,
    first: u64,
    time: u64,
) -> Answer
    requires { (length p.old ≡ pool_words) × ((length w.old ≡ site_words) × ((length t.old ≡ table_bytes) × ((a_site_or_alone site ≡ true) × (period < 2147483648)))) }
    ensures { Begun (judged_by Verdict.Accepted (fresh (pool_for site (pool_in p.old)) (site_for site) table.now links primary period first time)) p.old p.new w.old w.new t.old t.new result }
{
    store_table::put(t, *table);
    begin_pool(p, site);
    put_fresh(w, site_of(site), links, primary, period, first, time);
    Answer::Done(site::nothing())
}

// Accepts exactly values within their limits with the bytes of a table that is allowed.
pub fn start(
    p: &mut [u64],
    w: &mut [u64],
    t: &mut [u8],
    table: &[u8],
    site: u32,
    links: u32,
    primary: u32,
    period: u32,
    first: u64,
    time: u64,
) -> Answer
    requires { (length p.old ≡ pool_words) × ((length w.old ≡ site_words) × (length t.old ≡ table_bytes)) }
    ensures { StartsIn table.now site links primary period first time p.old p.new w.old w.new t.old t.new result }
{
    if within(site, links, primary, period, first, time) {
        let l = &table_whole::laid_out(table);
        if table_whole::is_accepted(l, table.len()) {
            return begin(
                p,
                w,
                t,
                &l.table,
                site,
                links as u16,
                primary_of(primary),
                period,
                first,
                time,
            );
        }
        return Answer::Refused(Refusal::NotAccepted);
    }
    Answer::Refused(Refusal::NotAccepted)
}
