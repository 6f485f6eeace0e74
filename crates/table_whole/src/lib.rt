// The site table: read from bits that someone else made.
#![tactic(auto)]

ghost use Rattle.std.specs.Prelude.{◌≡◌, take};
ghost use Rattle.table_whole.specs.Memory.{no_table};
ghost use Rattle.table_whole.specs.Reading.{laid_out, own_names, is_whole, read_table, refused as refused_of};
ghost use Rattle.table_whole.specs.Reads.{Reads};

use answer::Refusal;
use label::Label;
use table_item::Item;
use table_row::Kind;

#[repr(C)]
#[derive(Clone, Copy)]
pub struct SiteTable {
    pub componentcount: u16,
    pub alarmcount: u16,
    pub statuscount: u16,
    pub commandcount: u16,
    pub site: Label,
    pub sxl: Label,
    pub components: [Label; 8],
    pub alarms: [Item; 32],
    pub statuses: [Item; 32],
    pub commands: [Item; 16],
}

#[derive(Clone, Copy)]
pub enum Verdict {
    Accepted,
    Refused(Refusal),
}

#[derive(Clone, Copy)]
pub struct TableRead {
    pub table: SiteTable,
    pub verdict: Verdict,
}

// What the bytes are as a table, whether or not one is allowed, and where it ends.
#[derive(Clone, Copy)]
pub struct Laid {
    pub table: SiteTable,
    pub next: usize,
}

pub fn none() -> SiteTable
    ensures { result ≡ no_table }
{
    let label = label::none();
    let item = table_item::none();
    SiteTable {
        componentcount: 0,
        alarmcount: 0,
        statuscount: 0,
        commandcount: 0,
        site: label,
        sxl: label,
        components: [label; 8],
        alarms: [item; 32],
        statuses: [item; 32],
        commands: [item; 16],
    }
}

fn first_sixteen(rows: &[Item; 32]) -> [Item; 16]
    ensures { result ≡ take 16 rows.now }
{
    let none = table_item::none();
    let mut first = [none; 16];
    first.copy_from_slice(&rows[..16]);
    first
}

// One part behind the other.
pub fn laid_out(s: &[u8]) -> Laid
    ensures { result ≡ laid_out s.now }
{
    let h = table_row::read_head(s);
    let components = u64::from(h.components);
    let site = label::read(s, h.next);
    let sxl = label::read(s, site.next);
    let ids = table_row::read_labels(s, sxl.next, usize::from(h.components));
    let a = table_row::read_items(s, ids.next, Kind::Alarm, components, usize::from(h.alarms));
    let b = table_row::read_items(s, a.next, Kind::Status, components, usize::from(h.statuses));
    let c = table_row::read_items(
        s,
        b.next,
        Kind::Command,
        components,
        usize::from(h.commands),
    );
    let labels = ids.labels;
    let alarms = a.items;
    let statuses = b.items;
    let commands = first_sixteen(&c.items);
    Laid {
        table: SiteTable {
            componentcount: h.components,
            alarmcount: h.alarms,
            statuscount: h.statuses,
            commandcount: h.commands,
            site: site.label,
            sxl: sxl.label,
            components: labels,
            alarms,
            statuses,
            commands,
        },
        next: c.next,
    }
}

impl SiteTable {
    // No component id, no alarm, no status and no command twice.
    #[tactic(auto, unfolding(crate::specs::Reading::own_names))]
    fn own_names(&self) -> bool
        ensures { result ≡ own_names self.now }
    {
        table_item::own_labels(&self.components, usize::from(self.componentcount))
            && table_item::own_items(&self.alarms, usize::from(self.alarmcount))
            && table_item::own_items(&self.statuses, usize::from(self.statuscount))
            && table_item::own_items(&self.commands, usize::from(self.commandcount))
    }

    // Nothing left over behind it in so many bytes, and nothing twice.
    #[tactic(auto, unfolding(crate::specs::Reading::is_whole))]
    fn is_whole(&self, next: usize, size: usize) -> bool
        ensures { result ≡ is_whole self.now next size }
    {
        size < label::FAR && next == size && self.own_names()
    }
}

// Whether a table that was laid out of so many bytes is allowed: who needs no more than that and its parts need not have it by value.
pub fn is_accepted(l: &Laid, size: usize) -> bool
    ensures { result ≡ is_whole l.now.table l.now.next size }
{
    l.table.is_whole(l.next, size)
}

fn refused() -> TableRead
    ensures { result ≡ refused_of }
{
    TableRead {
        table: none(),
        verdict: Verdict::Refused(Refusal::NotAccepted),
    }
}

#[tactic(auto, unfolding(crate::specs::Reading::read_table))]
fn read_table(s: &[u8]) -> TableRead
    ensures { result ≡ read_table s.now }
{
    let l = laid_out(s);
    let next = l.next;
    let t = l.table;
    if t.is_whole(next, s.len()) {
        return TableRead {
            table: t,
            verdict: Verdict::Accepted,
        };
    }
    refused()
}

// Accepts exactly the bytes of a table that is allowed.
pub fn read(s: &[u8]) -> TableRead
    ensures { Reads s.now result }
{
    read_table(s)
}
