// The site as definitions speak of it: its words and its table stand for one (store_site, store_table). No function takes or gives one.
#![tactic(auto)]

ghost use Rattle.std.specs.Prelude.{◌≡◌};
ghost use Rattle.site.specs.Site.{is_down, mask_of};
ghost use Rattle.site.specs.Call.{nothing_of};

use aggregated::Aggregated;
use alarm::Alarm;
use answer::{Answer, Report};
use link::{Link, Phase};
use pool::Pool;
use status::Status;
use subscription::Subscription;
use table_whole::SiteTable;

// The subscription of link l to status k stands at l * 32 + k. There is no primary where primary is 65535.
#[repr(C)]
#[derive(Clone, Copy)]
pub struct Site {
    pub pool: Pool,
    pub links: [Link; 4],
    pub subscriptions: [Subscription; 128],
    pub alarms: [Alarm; 32],
    pub statuses: [Status; 32],
    pub aggregated: Aggregated,
    // the next sequence number
    pub next: u64,
    // the last time of a call done
    pub last: u64,
    // which of the two in its box: 0 or 1
    pub site: u16,
    // the watchdog period in seconds
    pub period: u32,
    pub linkcount: u16,
    pub primary: u16,
    pub table: SiteTable,
}

// What a call gives: its answer, and the next site.
#[derive(Clone, Copy)]
pub struct Step {
    pub site: Site,
    pub answer: Answer,
}

// A report of a call that closes nothing, writes nothing, gives no hint and hands nothing over.
pub fn nothing() -> Report
    ensures { result ≡ nothing_of }
{
    Report {
        hint: 0,
        written: 0,
        closed: 0,
        hinted: 0,
        commands: 0,
    }
}

pub fn is_down(p: Phase) -> bool
    ensures { result ≡ is_down p }
{
    match p {
        Phase::Down => true,
        Phase::Greeting => false,
        Phase::Beating => false,
        Phase::Up => false,
    }
}

// The link's bit among the links closed.
pub fn bit_of(l: u16) -> u16
    ensures { result ≡ mask_of l }
{
    if l == 0 {
        return 1;
    }
    if l == 1 {
        return 2;
    }
    if l == 2 {
        return 4;
    }
    if l == 3 {
        return 8;
    }
    0
}
