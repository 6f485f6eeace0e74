// The site table in the bytes that the host lends: read, looked up and laid out in place.
#![tactic(auto, unfolding(crate::specs::Layout::table_of))]

ghost use Rattle.std.specs.Prelude.{◌≡◌, length, get_or};
ghost use Rattle.label.specs.Label.{no_label};
ghost use Rattle.table_item.specs.Item.{no_item};
ghost use Rattle.table_whole.specs.Lookup.{find_component, find_alarm, find_status, find_command};
ghost use Rattle.store_table.specs.Layout.{table_of, layout_of, table_bytes};

use label::Label;
use table_item::{Found, Item};
use table_whole::SiteTable;

mod finds; // finds.rt: the first row that is called so
mod lays; // lays.rt: each part laid out
mod rows; // rows.rt: a count, a label, a row at a place

pub const BYTES: usize = 6178;

pub fn component_count(t: &[u8]) -> u16
    requires { length t.now ≡ table_bytes }
    ensures { result ≡ (table_of t.now).componentcount }
{
    rows::count_at(t, 0)
}

pub fn alarm_count(t: &[u8]) -> u16
    requires { length t.now ≡ table_bytes }
    ensures { result ≡ (table_of t.now).alarmcount }
{
    rows::count_at(t, 2)
}

pub fn status_count(t: &[u8]) -> u16
    requires { length t.now ≡ table_bytes }
    ensures { result ≡ (table_of t.now).statuscount }
{
    rows::count_at(t, 4)
}

pub fn command_count(t: &[u8]) -> u16
    requires { length t.now ≡ table_bytes }
    ensures { result ≡ (table_of t.now).commandcount }
{
    rows::count_at(t, 6)
}

pub fn site_id(t: &[u8]) -> Label
    requires { length t.now ≡ table_bytes }
    ensures { result ≡ (table_of t.now).site }
{
    rows::label_at(t, 8)
}

pub fn sxl(t: &[u8]) -> Label
    requires { length t.now ≡ table_bytes }
    ensures { result ≡ (table_of t.now).sxl }
{
    rows::label_at(t, 41)
}

pub fn component(t: &[u8], k: usize) -> Label
    requires { length t.now ≡ table_bytes }
    ensures { result ≡ get_or (table_of t.now).components k no_label }
{
    if k < 8 {
        rows::label_at(t, 74 + 33 * k)
    } else {
        label::none()
    }
}

pub fn alarm_row(t: &[u8], k: usize) -> Item
    requires { length t.now ≡ table_bytes }
    ensures { result ≡ get_or (table_of t.now).alarms k no_item }
{
    rows::row(t, 338, 32, k)
}

pub fn status_row(t: &[u8], k: usize) -> Item
    requires { length t.now ≡ table_bytes }
    ensures { result ≡ get_or (table_of t.now).statuses k no_item }
{
    rows::row(t, 2674, 32, k)
}

pub fn command_row(t: &[u8], k: usize) -> Item
    requires { length t.now ≡ table_bytes }
    ensures { result ≡ get_or (table_of t.now).commands k no_item }
{
    rows::row(t, 5010, 16, k)
}

pub fn find_component(t: &[u8], id: &[u8]) -> Found
    requires { length t.now ≡ table_bytes }
    ensures { result ≡ find_component (table_of t.now) id.now }
{
    finds::label(t, 74, usize::from(component_count(t)), id)
}

pub fn find_alarm(t: &[u8], component: u8, code: &[u8]) -> Found
    requires { length t.now ≡ table_bytes }
    ensures { result ≡ find_alarm (table_of t.now) component code.now }
{
    finds::item(
        t,
        338,
        32,
        usize::from(alarm_count(t)),
        component,
        code,
        b"",
    )
}

pub fn find_status(t: &[u8], component: u8, code: &[u8], name: &[u8]) -> Found
    requires { length t.now ≡ table_bytes }
    ensures { result ≡ find_status (table_of t.now) component code.now name.now }
{
    finds::item(
        t,
        2674,
        32,
        usize::from(status_count(t)),
        component,
        code,
        name,
    )
}

pub fn find_command(t: &[u8], component: u8, code: &[u8], name: &[u8]) -> Found
    requires { length t.now ≡ table_bytes }
    ensures { result ≡ find_command (table_of t.now) component code.now name.now }
{
    finds::item(
        t,
        5010,
        16,
        usize::from(command_count(t)),
        component,
        code,
        name,
    )
}

// Every byte is stored: what it was does not matter.
pub fn put(t: &mut [u8], x: SiteTable)
    requires { length t.old ≡ table_bytes }
    ensures { t.new ≡ layout_of x }
{
    lays::head(
        t,
        x.componentcount,
        x.alarmcount,
        x.statuscount,
        x.commandcount,
        x.site,
        x.sxl,
    );
    lays::labels(t, 74, &x.components);
    lays::items(t, 338, &x.alarms);
    lays::items(t, 2674, &x.statuses);
    lays::items(t, 5010, &x.commands);
}
