// Each list of the site filled with one element; the pool's by value, in its own words.
ghost use Rattle.std.specs.Prelude.{◌≡◌, length, replicate};
ghost use Rattle.site.specs.declared.Site.{Site};
ghost use Rattle.site.specs.Site.{with_subscriptions, with_alarms, with_statuses};
ghost use Rattle.store_site.specs.Turns.{Turns};
ghost use Rattle.store_whole.specs.Filled.{PutLinks, PutLost};
ghost use Rattle.store_site.specs.Layout.{places_in, pool_words, site_words};

use alarm::Alarm;
use link::Link;
use pool::Place;
use status::Status;
use subscription::Subscription;

pub fn put_places(w: &mut [u64], places: [Place; 128])
    requires { length w.old ≡ pool_words }
    ensures { places_in w.new ≡ places }
{
    for (k, place) in places.iter().enumerate() {
        store_pool::places::put_place(w, k, *place);
    }
}

pub fn put_lost(w: &mut [u64], lost: [u64; 8])
    requires { length w.old ≡ pool_words }
    ensures { PutLost w.old w.new lost }
{
    w[..8].copy_from_slice(&lost);
}

// One function for each list: a generic one would take what stores an element, and be this loop.
pub fn fill_links(w: &mut [u64], x: Link)
    requires { length w.old ≡ site_words }
    ensures { PutLinks w.old w.new (replicate 4 x) }
{
    for k in 0..4 {
        store_link::links::put_link_at(w, 5 + 75 * k, x);
    }
}

pub fn fill_subscriptions(w: &mut [u64], x: Subscription)
    requires { length w.old ≡ site_words }
    ensures { Turns (λ (s : Site). with_subscriptions s (replicate 128 x)) w.old w.new }
{
    for k in 0..128 {
        store_site::parts::put_subscription(w, k, x);
    }
}

pub fn fill_alarms(w: &mut [u64], x: Alarm)
    requires { length w.old ≡ site_words }
    ensures { Turns (λ (s : Site). with_alarms s (replicate 32 x)) w.old w.new }
{
    for k in 0..32 {
        store_site::parts::put_alarm(w, k, x);
    }
}

pub fn fill_statuses(w: &mut [u64], x: Status)
    requires { length w.old ≡ site_words }
    ensures { Turns (λ (s : Site). with_statuses s (replicate 32 x)) w.old w.new }
{
    for k in 0..32 {
        store_site::parts::put_status(w, k, x);
    }
}
