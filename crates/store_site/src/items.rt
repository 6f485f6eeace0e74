// An element of a list of the site by any number, for every pool ps and site table t. Past the list: what stands for none, and no change.
ghost use Rattle.std.specs.Prelude.{ℕ, List, ◌≡◌, length};
ghost use Rattle.link.specs.Phase.{phase_of, is_up};
ghost use Rattle.table_whole.specs.declared.SiteTable.{SiteTable};
ghost use Rattle.site.specs.declared.Site.{Site};
ghost use Rattle.site.specs.Site.{link_at};
ghost use Rattle.site.specs.Parts.{subscription_at, with_subscription, alarm_at, with_alarm, status_at, with_status};
ghost use Rattle.store_site.specs.Layout.{site_of, site_words};
ghost use Rattle.store_site.specs.Turns.{Turns};

use super::{parts, phases};
use alarm::Alarm;
use status::Status;
use subscription::Subscription;

pub fn up(w: &[u64], l: u16) -> bool
    requires { length w.now ≡ site_words }
    ensures { (ps : List ℕ) (t : SiteTable) → result ≡ is_up (phase_of (link_at (site_of ps w.now t) l)) }
{
    l < 4 && phases::up(w, usize::from(l))
}

pub fn subscription(w: &[u64], k: usize) -> Subscription
    requires { length w.now ≡ site_words }
    ensures { (ps : List ℕ) (t : SiteTable) → result ≡ subscription_at (site_of ps w.now t) k }
{
    if k < 128 {
        return parts::subscription(w, k);
    }
    Subscription::none()
}

pub fn put_subscription(w: &mut [u64], k: usize, x: Subscription)
    requires { length w.old ≡ site_words }
    ensures { Turns (λ (s : Site). with_subscription s k x) w.old w.new }
{
    if k < 128 {
        parts::put_subscription(w, k, x);
        return;
    }
}

pub fn alarm(w: &[u64], k: usize) -> Alarm
    requires { length w.now ≡ site_words }
    ensures { (ps : List ℕ) (t : SiteTable) → result ≡ alarm_at (site_of ps w.now t) k }
{
    if k < 32 {
        return parts::alarm(w, k);
    }
    Alarm::begin(0)
}

pub fn put_alarm(w: &mut [u64], k: usize, x: Alarm)
    requires { length w.old ≡ site_words }
    ensures { Turns (λ (s : Site). with_alarm s k x) w.old w.new }
{
    if k < 32 {
        parts::put_alarm(w, k, x);
        return;
    }
}

pub fn status(w: &[u64], k: usize) -> Status
    requires { length w.now ≡ site_words }
    ensures { (ps : List ℕ) (t : SiteTable) → result ≡ status_at (site_of ps w.now t) k }
{
    if k < 32 {
        return parts::status(w, k);
    }
    Status::unknown()
}

pub fn put_status(w: &mut [u64], k: usize, x: Status)
    requires { length w.old ≡ site_words }
    ensures { Turns (λ (s : Site). with_status s k x) w.old w.new }
{
    if k < 32 {
        parts::put_status(w, k, x);
        return;
    }
}
