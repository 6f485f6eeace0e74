// The head and the rows of the site table, read from its bits.
#![tactic(auto)]

ghost use Rattle.std.specs.Prelude.{◌≡◌, ◌≤◌};
ghost use Rattle.table_row.specs.Head.{good_counts, good_first, good_second, no_head, counted, first_head, second_head, head_of};
ghost use Rattle.table_row.specs.Rows.{good_alarm, good_status, missed_item, alarm_at, status_at, good_range, ranged as ranged_of, with_range, command_at, item_at, items_to, labels_to};

use label::Label;
use table_item::Item;

// The counts, and the place behind the head.
#[derive(Clone, Copy)]
pub struct Head {
    pub components: u16,
    pub alarms: u16,
    pub statuses: u16,
    pub commands: u16,
    pub next: usize,
}

// The counts that both editions have, with so many bits behind them.
#[tactic(auto, unfolding(crate::specs::Head::good_counts))]
fn good_counts(n: u64, behind: u32) -> bool
    requires { behind ≤ 12 }
    ensures { result ≡ good_counts behind n }
{
    let components = bits::field(n, behind + 12, 4);
    1 <= components
        && components <= 8
        && bits::field(n, behind + 6, 6) <= 32
        && bits::field(n, behind, 6) <= 32
}

// 24 bits: behind the counts are 4 zeros.
#[tactic(auto, unfolding(crate::specs::Head::good_first))]
fn good_first(n: u64) -> bool
    ensures { result ≡ good_first n }
{
    bits::field(n, 20, 4) == 1 && bits::field(n, 0, 4) == 0 && good_counts(n, 4)
}

// 32 bits: behind the counts are that of the commands and 7 zeros.
#[tactic(auto, unfolding(crate::specs::Head::good_second))]
fn good_second(n: u64) -> bool
    ensures { result ≡ good_second n }
{
    bits::field(n, 28, 4) == 2
        && bits::field(n, 0, 7) == 0
        && bits::field(n, 7, 5) <= 16
        && good_counts(n, 12)
}

fn no_head() -> Head
    ensures { result ≡ no_head }
{
    Head {
        components: 0,
        alarms: 0,
        statuses: 0,
        commands: 0,
        next: label::FAR,
    }
}

fn head_with(n: u64, behind: u32, commands: u16, next: usize) -> Head
    requires { behind ≤ 12 }
    ensures { result ≡ counted behind n commands next }
{
    Head {
        components: bits::field(n, behind + 12, 4) as u16,
        alarms: bits::field(n, behind + 6, 6) as u16,
        statuses: bits::field(n, behind, 6) as u16,
        commands,
        next,
    }
}

#[tactic(auto, unfolding(crate::specs::Head::first_head))]
fn first_head(s: &[u8]) -> Head
    ensures { result ≡ first_head s.now }
{
    if s.len() < 3 {
        return no_head();
    }
    let n = bits::number(&s[0..3]);
    if good_first(n) {
        head_with(n, 4, 0, 3)
    } else {
        no_head()
    }
}

#[tactic(auto, unfolding(crate::specs::Head::second_head))]
fn second_head(s: &[u8]) -> Head
    ensures { result ≡ second_head s.now }
{
    if s.len() < 4 {
        return no_head();
    }
    let n = bits::number(&s[0..4]);
    if good_second(n) {
        head_with(n, 12, bits::field(n, 7, 5) as u16, 4)
    } else {
        no_head()
    }
}

// The head of edition 1, or else of edition 2, with its counts.
#[tactic(auto, unfolding(crate::specs::Head::head_of))]
pub fn read_head(s: &[u8]) -> Head
    ensures { result ≡ head_of s.now }
{
    let first = first_head(s);
    if first.next < label::FAR {
        return first;
    }
    second_head(s)
}

// A row that was read, and the place behind it.
#[derive(Clone, Copy)]
pub struct ItemRead {
    pub item: Item,
    pub next: usize,
}

fn missed() -> ItemRead
    ensures { result ≡ missed_item }
{
    ItemRead {
        item: table_item::none(),
        next: label::FAR,
    }
}

#[tactic(auto, unfolding(crate::specs::Rows::good_alarm))]
fn good_alarm(b: u64, components: u64) -> bool
    ensures { result ≡ good_alarm components b }
{
    bits::field(b, 0, 2) == 0 && 1 <= bits::field(b, 3, 2) && bits::field(b, 5, 3) < components
}

#[tactic(auto, unfolding(crate::specs::Rows::good_status))]
fn good_status(b: u64, components: u64) -> bool
    ensures { result ≡ good_status components b }
{
    bits::field(b, 0, 5) == 0 && bits::field(b, 5, 3) < components
}

#[tactic(auto, unfolding(crate::specs::Rows::alarm_at))]
fn alarm_at(s: &[u8], at: usize, components: u64) -> ItemRead
    ensures { result ≡ alarm_at s.now components at }
{
    if s.len() <= at {
        return missed();
    }
    let b = u64::from(s[at]);
    if good_alarm(b, components) {
        let code = label::read(s, at + 1);
        let text = code.label;
        let i = Item {
            code: text,
            name: label::none(),
            component: bits::field(b, 5, 3) as u8,
            priority: bits::field(b, 3, 2) as u8,
            category: bits::field(b, 2, 1) as u8,
            lowest: 0,
            highest: 0,
        };
        ItemRead {
            item: i,
            next: code.next,
        }
    } else {
        missed()
    }
}

#[tactic(auto, unfolding(crate::specs::Rows::status_at))]
fn status_at(s: &[u8], at: usize, components: u64) -> ItemRead
    ensures { result ≡ status_at s.now components at }
{
    if s.len() <= at {
        return missed();
    }
    let b = u64::from(s[at]);
    if good_status(b, components) {
        let code = label::read(s, at + 1);
        let name = label::read(s, code.next);
        let first = code.label;
        let second = name.label;
        let i = Item {
            code: first,
            name: second,
            component: bits::field(b, 5, 3) as u8,
            priority: 0,
            category: 0,
            lowest: 0,
            highest: 0,
        };
        ItemRead {
            item: i,
            next: name.next,
        }
    } else {
        missed()
    }
}

fn good_range(n: u64) -> bool
    ensures { result ≡ good_range n }
{
    let lowest = bits::field(n, 16, 16) as u16;
    let highest = bits::field(n, 0, 16) as u16;
    number::at_most(number::signed16_of(lowest), number::signed16_of(highest))
}

fn ranged(row: Item, n: u64) -> Item
    ensures { result ≡ ranged_of row n }
{
    Item {
        lowest: bits::field(n, 16, 16) as u16,
        highest: bits::field(n, 0, 16) as u16,
        ..row
    }
}

// A row with the two values that stand behind it: its lowest and its highest.
#[tactic(auto, unfolding(crate::specs::Rows::with_range))]
fn with_range(s: &[u8], r: ItemRead) -> ItemRead
    ensures { result ≡ with_range s.now r }
{
    let at = r.next;
    if s.len() < at {
        return missed();
    }
    if s.len() - at < 4 {
        return missed();
    }
    let end = at + 4;
    let n = bits::number(&s[at..end]);
    if good_range(n) {
        let row = r.item;
        ItemRead {
            item: ranged(row, n),
            next: end,
        }
    } else {
        missed()
    }
}

#[tactic(auto, unfolding(crate::specs::Rows::command_at))]
fn command_at(s: &[u8], at: usize, components: u64) -> ItemRead
    ensures { result ≡ command_at s.now components at }
{
    with_range(s, status_at(s, at, components))
}

#[derive(Clone, Copy)]
pub enum Kind {
    Alarm,
    Status,
    Command,
}

fn item_at(s: &[u8], at: usize, kind: Kind, components: u64) -> ItemRead
    ensures { result ≡ item_at s.now kind components at }
{
    match kind {
        Kind::Alarm => alarm_at(s, at, components),
        Kind::Status => status_at(s, at, components),
        Kind::Command => command_at(s, at, components),
    }
}

#[derive(Clone, Copy)]
pub struct ItemsRead {
    pub items: [Item; 32],
    pub next: usize,
}

// As many rows of this kind as counted, one behind the other.
#[tactic(auto, unfolding(crate::specs::Rows::items_to))]
pub fn read_items(s: &[u8], at: usize, kind: Kind, components: u64, count: usize) -> ItemsRead
    ensures { result ≡ items_to s.now kind components at count }
{
    let none = table_item::none();
    let mut items = [none; 32];
    let mut next = at;
    for i in 0..count {
        let g = item_at(s, next, kind, components);
        if i < 32 {
            items[i] = g.item;
        }
        next = g.next;
    }
    ItemsRead { items, next }
}

#[derive(Clone, Copy)]
pub struct LabelsRead {
    pub labels: [Label; 8],
    pub next: usize,
}

// As many strings as counted, one behind the other.
#[tactic(auto, unfolding(crate::specs::Rows::labels_to))]
pub fn read_labels(s: &[u8], at: usize, count: usize) -> LabelsRead
    ensures { result ≡ labels_to s.now at count }
{
    let none = label::none();
    let mut labels = [none; 8];
    let mut next = at;
    for i in 0..count {
        let g = label::read(s, next);
        if i < 8 {
            labels[i] = g.label;
        }
        next = g.next;
    }
    LabelsRead { labels, next }
}
