// What the subscriptions issue at a tick, and the subscriptions after it.
ghost use Rattle.std.specs.Prelude.{◌≡◌, List, map, ℕ, ◌<◌, length};
ghost use Rattle.link.specs.declared.Link.{Link};
ghost use Rattle.subscription.specs.Subscription.{tick_of};
ghost use Rattle.table_whole.specs.declared.SiteTable.{SiteTable};
ghost use Rattle.site.specs.declared.Site.{Site};
ghost use Rattle.site.specs.Site.{with_subscriptions};
ghost use Rattle.site.specs.Parts.{subscription_at, with_subscription};
ghost use Rattle.store_site.specs.Layout.{site_of, pool_words, site_words};
ghost use Rattle.store_site.specs.Turns.{Turns, Moves};
ghost use Rattle.store_call.specs.Issued.{issued_in};
ghost use Rattle.call_tick.specs.Intervals.{renewed, record_at, records_of};

fn issues(w: &[u64], i: u16, time: u64) -> bool
    requires { (length w.now ≡ site_words) × (i < 128) }
    ensures { (ps : List ℕ) (t : SiteTable) → result ≡ (tick_of (subscription_at (site_of ps w.now t) i) time).issues }
{
    let x = store_site::parts::subscription(w, i as usize);
    let t = x.on_tick(time);
    t.issues
}

// How many records are issued, whatever the links ns are.
pub fn how_many(w: &[u64], time: u64) -> u64
    requires { length w.now ≡ site_words }
    ensures { (ps : List ℕ) (t : SiteTable) (ns : List Link) → result ≡ length (records_of (site_of ps w.now t).site (site_of ps w.now t).subscriptions (site_of ps w.now t).statuses ns time) }
{
    let mut n: u64 = 0;
    for i in 0..128 {
        n = store_call::records::more_if(n, issues(w, i, time));
    }
    n
}

// The record of the place i, where its subscription issues one.
fn issue_one(p: &mut [u64], w: &mut [u64], i: u16, time: u64)
    requires { (length p.old ≡ pool_words) × ((length w.old ≡ site_words) × (i < 128)) }
    ensures { Moves (λ (s : Site). issued_in s (record_at s.site s.subscriptions s.statuses s.links time i)) p.old p.new w.old w.new }
{
    if issues(w, i, time) {
        let k = store_site::parts::status(w, (i % 32) as usize);
        let e = store_call::records::status(w, k, i / 32, i % 32, time);
        store_call::add(p, w, e);
        return;
    }
}

pub fn issue_all(p: &mut [u64], w: &mut [u64], time: u64)
    requires { (length p.old ≡ pool_words) × (length w.old ≡ site_words) }
    ensures { Moves (λ (s : Site). issued_in s (records_of s.site s.subscriptions s.statuses s.links time)) p.old p.new w.old w.new }
{
    for i in 0..128 {
        issue_one(p, w, i, time);
    }
}

fn renew(w: &mut [u64], i: usize, time: u64)
    requires { (length w.old ≡ site_words) × (i < 128) }
    ensures { Turns (λ (s : Site). with_subscription s i (renewed time (subscription_at s i))) w.old w.new }
{
    let x = store_site::parts::subscription(w, i);
    let t = x.on_tick(time);
    store_site::parts::put_subscription(w, i, t.subscription);
}

pub fn renew_all(w: &mut [u64], time: u64)
    requires { length w.old ≡ site_words }
    ensures { Turns (λ (s : Site). with_subscriptions s (map (renewed time) s.subscriptions)) w.old w.new }
{
    for i in 0..128 {
        renew(w, i, time);
    }
}
