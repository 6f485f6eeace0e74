// The parts of the site, read and replaced in place, for every pool ps and site table t.
ghost use Rattle.std.specs.Prelude.{List, ◌≡◌, ℕ, ◌<◌, length};
ghost use Rattle.table_whole.specs.declared.SiteTable.{SiteTable};
ghost use Rattle.site.specs.declared.Site.{Site};
ghost use Rattle.site.specs.Site.{link_at, with_link};
ghost use Rattle.site.specs.Parts.{subscription_at, with_subscription, alarm_at, with_alarm, status_at, with_status};
ghost use Rattle.store_site.specs.Layout.{site_of, with_next, with_last, site_words};
ghost use Rattle.store_site.specs.Turns.{Turns};

use alarm::Alarm;
use link::Link;
use status::Status;
use subscription::Subscription;

pub fn link(w: &[u64], l: usize) -> Link
    requires { (length w.now ≡ site_words) × (l < 4) }
    ensures { (ps : List ℕ) (t : SiteTable) → result ≡ link_at (site_of ps w.now t) l }
{
    store_link::links::link_at(w, 5 + 75 * l)
}

pub fn put_link(w: &mut [u64], l: usize, x: Link)
    requires { (length w.old ≡ site_words) × (l < 4) }
    ensures { Turns (λ (s : Site). with_link s l x) w.old w.new }
{
    store_link::links::put_link_at(w, 5 + 75 * l, x);
}

// The subscription of link l to status k stands at l * 32 + k.
pub fn subscription(w: &[u64], k: usize) -> Subscription
    requires { (length w.now ≡ site_words) × (k < 128) }
    ensures { (ps : List ℕ) (t : SiteTable) → result ≡ subscription_at (site_of ps w.now t) k }
{
    let i = 305 + 2 * k;
    let numbers = w[i + 1];
    Subscription {
        since: w[i],
        seconds: store_words::upper(numbers),
        state: store_words::lower(numbers),
    }
}

pub fn put_subscription(w: &mut [u64], k: usize, x: Subscription)
    requires { (length w.old ≡ site_words) × (k < 128) }
    ensures { Turns (λ (s : Site). with_subscription s k x) w.old w.new }
{
    let i = 305 + 2 * k;
    let numbers = store_words::pair(x.seconds, x.state);
    w[i] = x.since;
    w[i + 1] = numbers;
}

pub fn alarm(w: &[u64], k: usize) -> Alarm
    requires { (length w.now ≡ site_words) × (k < 32) }
    ensures { (ps : List ℕ) (t : SiteTable) → result ≡ alarm_at (site_of ps w.now t) k }
{
    let i = 561 + 2 * k;
    let states = w[i + 1];
    Alarm {
        time: w[i],
        event: store_words::quarter(states, 48),
        acknowledged: store_words::quarter(states, 32),
        active: store_words::quarter(states, 16),
        suspended: store_words::quarter(states, 0),
    }
}

pub fn put_alarm(w: &mut [u64], k: usize, x: Alarm)
    requires { (length w.old ≡ site_words) × (k < 32) }
    ensures { Turns (λ (s : Site). with_alarm s k x) w.old w.new }
{
    let i = 561 + 2 * k;
    let states = store_words::quad(x.event, x.acknowledged, x.active, x.suspended);
    w[i] = x.time;
    w[i + 1] = states;
}

pub fn status(w: &[u64], k: usize) -> Status
    requires { (length w.now ≡ site_words) × (k < 32) }
    ensures { (ps : List ℕ) (t : SiteTable) → result ≡ status_at (site_of ps w.now t) k }
{
    let both = w[625 + k];
    Status {
        value: store_words::upper(both),
        known: store_words::lower(both),
    }
}

pub fn put_status(w: &mut [u64], k: usize, x: Status)
    requires { (length w.old ≡ site_words) × (k < 32) }
    ensures { Turns (λ (s : Site). with_status s k x) w.old w.new }
{
    let both = store_words::pair(x.value, x.known);
    w[625 + k] = both;
}

pub fn next(w: &[u64]) -> u64
    requires { length w.now ≡ site_words }
    ensures { (ps : List ℕ) (t : SiteTable) → result ≡ (site_of ps w.now t).next }
{
    w[0]
}

pub fn put_next(w: &mut [u64], n: u64)
    requires { length w.old ≡ site_words }
    ensures { Turns (λ (s : Site). with_next s n) w.old w.new }
{
    w[0] = n;
}

pub fn put_last(w: &mut [u64], n: u64)
    requires { length w.old ≡ site_words }
    ensures { Turns (λ (s : Site). with_last s n) w.old w.new }
{
    w[1] = n;
}
