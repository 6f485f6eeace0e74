// What stands once in a site, and what every call asks of it, for every pool ps and site table t.
ghost use Rattle.std.specs.Prelude.{ℕ, List, ◌≡◌, length};
ghost use Rattle.table_whole.specs.declared.SiteTable.{SiteTable};
ghost use Rattle.site.specs.declared.Site.{Site};
ghost use Rattle.site.specs.Site.{no_link_at, bad_time_at, has_primary, role_of, owner_of, with_aggregated};
ghost use Rattle.store_site.specs.Layout.{site_of, site_words};
ghost use Rattle.store_site.specs.Turns.{Turns};

use aggregated::Aggregated;
use link::Role;

// The watchdog period in seconds.
pub fn period(w: &[u64]) -> u32
    requires { length w.now ≡ site_words }
    ensures { (ps : List ℕ) (t : SiteTable) → result ≡ (site_of ps w.now t).period }
{
    store_words::below_top(w[2])
}

// Which of the two in its box it is.
pub fn site(w: &[u64]) -> u16
    requires { length w.now ≡ site_words }
    ensures { (ps : List ℕ) (t : SiteTable) → result ≡ (site_of ps w.now t).site }
{
    store_words::top(w[2])
}

// The owner of the link's records in the pool, 8 for a link above 3.
pub fn owner(w: &[u64], l: u16) -> u16
    requires { length w.now ≡ site_words }
    ensures { (ps : List ℕ) (t : SiteTable) → result ≡ owner_of (site_of ps w.now t) l }
{
    if l < 4 {
        if store_words::top(w[2]) == 0 {
            return l;
        }
        return 4 + l;
    }
    8
}

pub fn link_count(w: &[u64]) -> u16
    requires { length w.now ≡ site_words }
    ensures { (ps : List ℕ) (t : SiteTable) → result ≡ (site_of ps w.now t).linkcount }
{
    store_words::quarter(w[2], 16)
}

pub fn primary(w: &[u64]) -> u16
    requires { length w.now ≡ site_words }
    ensures { (ps : List ℕ) (t : SiteTable) → result ≡ (site_of ps w.now t).primary }
{
    store_words::quarter(w[2], 0)
}

pub fn has_primary(w: &[u64]) -> bool
    requires { length w.now ≡ site_words }
    ensures { (ps : List ℕ) (t : SiteTable) → result ≡ has_primary (site_of ps w.now t) }
{
    let first = store_words::quarter(w[2], 0);
    let count = store_words::quarter(w[2], 16);
    first < count
}

pub fn role(w: &[u64], l: u16) -> Role
    requires { length w.now ≡ site_words }
    ensures { (ps : List ℕ) (t : SiteTable) → result ≡ role_of (site_of ps w.now t) l }
{
    if l == store_words::quarter(w[2], 0) {
        return Role::Primary;
    }
    Role::Secondary
}

// Number 2.
pub fn no_link(w: &[u64], link: u32) -> bool
    requires { length w.now ≡ site_words }
    ensures { (ps : List ℕ) (t : SiteTable) → result ≡ no_link_at (site_of ps w.now t) link }
{
    let count = store_words::quarter(w[2], 16);
    4 <= link || u32::from(count) <= link
}

// Number 5.
pub fn bad_time(w: &[u64], time: u64) -> bool
    requires { length w.now ≡ site_words }
    ensures { (ps : List ℕ) (t : SiteTable) → result ≡ bad_time_at (site_of ps w.now t) time }
{
    if time < w[1] {
        return true;
    }
    answer::LAST_TIME < time
}

pub fn aggregated(w: &[u64]) -> Aggregated
    requires { length w.now ≡ site_words }
    ensures { (ps : List ℕ) (t : SiteTable) → result ≡ (site_of ps w.now t).aggregated }
{
    Aggregated {
        time: w[3],
        value: w[4],
    }
}

pub fn put_aggregated(w: &mut [u64], x: Aggregated)
    requires { length w.old ≡ site_words }
    ensures { Turns (λ (s : Site). with_aggregated s x) w.old w.new }
{
    w[3] = x.time;
    w[4] = x.value;
}
