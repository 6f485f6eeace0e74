// The records that a value issues, link by link upwards: counted, and issued in place.
ghost use Rattle.std.specs.Prelude.{List, ◌≡◌, ℕ, ◌+◌, ◌*◌, length};
ghost use Rattle.subscription.specs.Subscription.{issues_on};
ghost use Rattle.table_whole.specs.declared.SiteTable.{SiteTable};
ghost use Rattle.site.specs.declared.Site.{Site};
ghost use Rattle.site.specs.Parts.{subscription_at};
ghost use Rattle.store_site.specs.Layout.{site_of, pool_words, site_words};
ghost use Rattle.store_site.specs.Turns.{Moves};
ghost use Rattle.store_call.specs.Issued.{issued_in};
ghost use Rattle.call_input.specs.Inputs.{status_entry, status_entries, aggregated_entry, aggregated_entries};

// Whether the subscription of link l issues one.
fn issues(w: &[u64], x: status::Set, number: u16, l: u16) -> bool
    requires { length w.now ≡ site_words }
    ensures { (ps : List ℕ) (t : SiteTable) → result ≡ issues_on (subscription_at (site_of ps w.now t) (l * 32 + number)) x.changed }
{
    let u = store_site::items::subscription(w, (l as usize) * 32 + (number as usize));
    u.on_value(x.changed)
}

pub fn of_status(w: &[u64], x: status::Set, number: u16) -> u64
    requires { length w.now ≡ site_words }
    ensures { (ps : List ℕ) (t : SiteTable) (time : ℕ) → result ≡ length (status_entries (site_of ps w.now t) number x time) }
{
    let count = store_site::head::link_count(w);
    let mut n: u64 = 0;
    for l in 0..count {
        n = store_call::records::more_if(n, issues(w, x, number, l));
    }
    n
}

fn add_status(p: &mut [u64], w: &mut [u64], x: status::Set, number: u16, time: u64, l: u16)
    requires { (length p.old ≡ pool_words) × (length w.old ≡ site_words) }
    ensures { Moves (λ (s : Site). issued_in s (status_entry s number x time l)) p.old p.new w.old w.new }
{
    if issues(w, x, number, l) {
        let e = store_call::records::status(w, x.status, l, number, time);
        store_call::add(p, w, e);
        return;
    }
}

pub fn add_statuses(p: &mut [u64], w: &mut [u64], x: status::Set, number: u16, time: u64)
    requires { (length p.old ≡ pool_words) × (length w.old ≡ site_words) }
    ensures { Moves (λ (s : Site). issued_in s (status_entries s number x time)) p.old p.new w.old w.new }
{
    let count = store_site::head::link_count(w);
    for l in 0..count {
        add_status(p, w, x, number, time, l);
    }
}

pub fn of_aggregated(w: &[u64], x: aggregated::Set) -> u64
    requires { length w.now ≡ site_words }
    ensures { (ps : List ℕ) (t : SiteTable) → result ≡ length (aggregated_entries (site_of ps w.now t) x) }
{
    if x.changed {
        return store_site::head::link_count(w) as u64;
    }
    0
}

fn add_one(p: &mut [u64], w: &mut [u64], x: aggregated::Set, l: u16)
    requires { (length p.old ≡ pool_words) × (length w.old ≡ site_words) }
    ensures { Moves (λ (s : Site). issued_in s (aggregated_entry s x l)) p.old p.new w.old w.new }
{
    if x.changed {
        let a = x.aggregated;
        let owner = store_site::head::owner(w, l);
        store_call::add(p, w, a.issued(owner));
        return;
    }
}

pub fn add_aggregated(p: &mut [u64], w: &mut [u64], x: aggregated::Set)
    requires { (length p.old ≡ pool_words) × (length w.old ≡ site_words) }
    ensures { Moves (λ (s : Site). issued_in s (aggregated_entries s x)) p.old p.new w.old w.new }
{
    let count = store_site::head::link_count(w);
    for l in 0..count {
        add_one(p, w, x, l);
    }
}
