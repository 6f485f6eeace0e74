// What a packet names, looked up in the site table.
#![tactic(auto)]

ghost use Rattle.std.specs.Prelude.{◌≡◌, length};
ghost use Rattle.label.specs.Label.{text_of};
ghost use Rattle.table_whole.specs.Lookup.{find_status, find_command};
ghost use Rattle.store_table.specs.Layout.{table_of, table_bytes};
ghost use Rattle.read_lists.specs.Status.{no_entry};
ghost use Rattle.packet_lookup.specs.Sought.{numbered, component_sought, alarm_in, or_no_alarm, alarm_sought, status_sought, command_sought, is_sought, entry_at, all_statuses};

use label::Label;
use read_commands::CommandEntry;
use read_lists::StatusEntry;
use table_item::Found;

// The number of a component, an alarm, a status or a command.
#[derive(Clone, Copy)]
pub enum Sought {
    Is(u8),
    Nothing,
}

#[derive(Clone, Copy)]
pub enum SoughtAlarm {
    Alarm(u8),
    NoComponent,
    NoAlarm,
}

fn number(f: Found) -> Sought
    ensures { result ≡ numbered f }
{
    match f {
        Found::At(i) => {
            if i < 32 {
                Sought::Is(i as u8)
            } else {
                Sought::Nothing
            }
        }
        Found::Nothing => Sought::Nothing,
    }
}

// A component by its id.
pub fn component(t: &[u8], id: Label) -> Sought
    requires { length t.now ≡ table_bytes }
    ensures { result ≡ component_sought (table_of t.now) id }
{
    let n = label::size(id);
    let bytes = id.bytes;
    number(store_table::find_component(t, &bytes[0..n]))
}

fn alarm_in(t: &[u8], component: u8, code: Label) -> Sought
    requires { length t.now ≡ table_bytes }
    ensures { result ≡ alarm_in (table_of t.now) component code }
{
    let n = label::size(code);
    let bytes = code.bytes;
    number(store_table::find_alarm(t, component, &bytes[0..n]))
}

fn or_no_alarm(a: Sought) -> SoughtAlarm
    ensures { result ≡ or_no_alarm a }
{
    match a {
        Sought::Is(k) => SoughtAlarm::Alarm(k),
        Sought::Nothing => SoughtAlarm::NoAlarm,
    }
}

// An alarm by its component's id and its code.
pub fn alarm(t: &[u8], id: Label, code: Label) -> SoughtAlarm
    requires { length t.now ≡ table_bytes }
    ensures { result ≡ alarm_sought (table_of t.now) id code }
{
    match component(t, id) {
        Sought::Is(k) => or_no_alarm(alarm_in(t, k, code)),
        Sought::Nothing => SoughtAlarm::NoComponent,
    }
}

fn named(t: &[u8], component: u8, code: &[u8], name: Label) -> Found
    requires { length t.now ≡ table_bytes }
    ensures { result ≡ find_status (table_of t.now) component code.now (text_of name) }
{
    let n = label::size(name);
    let bytes = name.bytes;
    store_table::find_status(t, component, code, &bytes[0..n])
}

fn called(t: &[u8], component: u8, code: Label, name: Label) -> Found
    requires { length t.now ≡ table_bytes }
    ensures { result ≡ find_status (table_of t.now) component (text_of code) (text_of name) }
{
    let n = label::size(code);
    let bytes = code.bytes;
    named(t, component, &bytes[0..n], name)
}

// A status of a component, as an entry names it.
pub fn status(t: &[u8], component: u8, e: StatusEntry) -> Sought
    requires { length t.now ≡ table_bytes }
    ensures { result ≡ status_sought (table_of t.now) component e }
{
    number(called(t, component, e.code, e.name))
}

fn named_command(t: &[u8], component: u8, code: &[u8], name: Label) -> Found
    requires { length t.now ≡ table_bytes }
    ensures { result ≡ find_command (table_of t.now) component code.now (text_of name) }
{
    let n = label::size(name);
    let bytes = name.bytes;
    store_table::find_command(t, component, code, &bytes[0..n])
}

fn called_command(t: &[u8], component: u8, code: Label, name: Label) -> Found
    requires { length t.now ≡ table_bytes }
    ensures { result ≡ find_command (table_of t.now) component (text_of code) (text_of name) }
{
    let n = label::size(code);
    let bytes = code.bytes;
    named_command(t, component, &bytes[0..n], name)
}

// A command of a component, as an entry names it.
pub fn command(t: &[u8], component: u8, e: CommandEntry) -> Sought
    requires { length t.now ≡ table_bytes }
    ensures { result ≡ command_sought (table_of t.now) component e }
{
    number(called_command(t, component, e.code, e.name))
}

pub fn is_sought(f: Sought) -> bool
    ensures { result ≡ is_sought f }
{
    matches!(f, Sought::Is(_))
}

fn none() -> StatusEntry
    ensures { result ≡ no_entry }
{
    StatusEntry {
        code: label::none(),
        name: label::none(),
        seconds: 0,
        onchange: false,
    }
}

pub fn entry_in(entries: [StatusEntry; 16], i: usize) -> StatusEntry
    ensures { result ≡ entry_at entries i }
{
    entries.get(i).copied().unwrap_or(none())
}

fn is_status(t: &[u8], component: u8, e: StatusEntry) -> bool
    requires { length t.now ≡ table_bytes }
    ensures { result ≡ is_sought (status_sought (table_of t.now) component e) }
{
    is_sought(status(t, component, e))
}

// Whether each of the first count entries is a status of the component.
pub fn all_statuses(t: &[u8], component: u8, entries: [StatusEntry; 16], count: usize) -> bool
    requires { length t.now ≡ table_bytes }
    ensures { result ≡ all_statuses (table_of t.now) component entries count }
{
    (0..count).all(|i| is_status(t, component, entry_in(entries, i)))
}
