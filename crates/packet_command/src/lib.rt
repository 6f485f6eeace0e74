// CommandRequest, of either form: every entry is judged, then all are answered and counted as handed over, or none is. Handing over writes them into lent words.
#![tactic(auto)]

ghost use Rattle.std.specs.Prelude.{◌≡◌, true, List, ◌++◌, ℕ, ◌+◌, ◌*◌, ◌^◌, ◌<◌, length};
ghost use Rattle.number.specs.Signed.{word_of};
ghost use Rattle.output.specs.Put.{Wrote};
ghost use Rattle.write_message.specs.declared.Told.TheVariants.{Command as command_kind};
ghost use Rattle.write_message.specs.Message.Message.{ack};
ghost use Rattle.write_message.specs.Pieces.{pieces, entry_pieces, entries_pieces};
ghost use Rattle.label.specs.Label.{text_of};
ghost use Rattle.json_find.specs.Index.{Indexed};
ghost use Rattle.read_commands.specs.Command.{no_command, command_at};
ghost use Rattle.table_whole.specs.declared.SiteTable.{SiteTable};
ghost use Rattle.store_table.specs.Layout.{table_of, table_bytes};
ghost use Rattle.packet_lookup.specs.Sought.{component_sought, command_sought, is_sought};
ghost use Rattle.site.specs.declared.Site.{Site};
ghost use Rattle.store_site.specs.Layout.{site_of, site_words};
ghost use Rattle.packet_answer.specs.Taken.{answering};
ghost use Rattle.packet_answer.specs.Ending.{response_of};
ghost use Rattle.packet_answer.specs.Takes.{TakesIn};
ghost use Rattle.packet_command.specs.Commanding.{entry_at, in_range, within as within_of, all_within, all_commands, keeps_ranges as keeps_ranges_of, passes as passes_of, value_in, told_of, told_to, told, number_of, command_of, commands_to, commands_of, ordered_of, command_taken};
ghost use Rattle.packet_command.specs.Handing.{command_word, handed_over, commands_in};

use answer::{Answer, Refusal};
use names::reasons;
use packet_answer::Question;
use packet_lookup::Sought;
use read_commands::{CommandEntry, CommandFields};
use read_head::Verdict;
use table_item::Item;
use write_message::{Told, Value};

fn none() -> CommandEntry
    ensures { result ≡ no_command }
{
    CommandEntry {
        code: label::none(),
        name: label::none(),
        value: 0,
    }
}

fn entry_in(entries: [CommandEntry; 16], i: usize) -> CommandEntry
    ensures { result ≡ entry_at entries i }
{
    if i < 16 {
        return entries[i];
    }
    none()
}

fn in_range(row: Item, v: i32) -> bool
    ensures { result ≡ in_range row v }
{
    let lowest = number::signed16_of(row.lowest);
    let highest = number::signed16_of(row.highest);
    number::at_most(lowest, v) && number::at_most(v, highest)
}

fn within(t: &[u8], k: Sought, v: i32) -> bool
    requires { length t.now ≡ table_bytes }
    ensures { result ≡ within_of (table_of t.now) k v }
{
    match k {
        Sought::Is(n) => in_range(store_table::command_row(t, n as usize), v),
        Sought::Nothing => true,
    }
}

fn entry_within(t: &[u8], component: u8, e: CommandEntry) -> bool
    requires { length t.now ≡ table_bytes }
    ensures { result ≡ within_of (table_of t.now) (command_sought (table_of t.now) component e) e.value }
{
    within(t, packet_lookup::command(t, component, e), e.value)
}

fn all_within(t: &[u8], component: u8, entries: [CommandEntry; 16], count: usize) -> bool
    requires { length t.now ≡ table_bytes }
    ensures { result ≡ all_within (table_of t.now) component entries count }
{
    (0..count).all(|i| entry_within(t, component, entry_in(entries, i)))
}

fn is_command(t: &[u8], component: u8, e: CommandEntry) -> bool
    requires { length t.now ≡ table_bytes }
    ensures { result ≡ is_sought (command_sought (table_of t.now) component e) }
{
    packet_lookup::is_sought(packet_lookup::command(t, component, e))
}

fn all_commands(t: &[u8], component: u8, entries: [CommandEntry; 16], count: usize) -> bool
    requires { length t.now ≡ table_bytes }
    ensures { result ≡ all_commands (table_of t.now) component entries count }
{
    (0..count).all(|i| is_command(t, component, entry_in(entries, i)))
}

// Whether no value of a known component's command is outside its range.
fn keeps_ranges(t: &[u8], f: CommandFields, component: Sought) -> bool
    requires { length t.now ≡ table_bytes }
    ensures { result ≡ keeps_ranges_of (table_of t.now) f component }
{
    let entries = f.entries;
    match component {
        Sought::Is(c) => all_within(t, c, entries, f.count),
        Sought::Nothing => true,
    }
}

// Whether each entry is a command of a known component.
fn passes(t: &[u8], f: CommandFields, component: Sought) -> bool
    requires { length t.now ≡ table_bytes }
    ensures { result ≡ passes_of (table_of t.now) f component }
{
    let entries = f.entries;
    match component {
        Sought::Is(c) => all_commands(t, c, entries, f.count),
        Sought::Nothing => true,
    }
}

fn value_in(component: Sought, e: CommandEntry) -> Value
    ensures { result ≡ value_in component e }
{
    match component {
        Sought::Is(_) => Value::Recent(e.value),
        Sought::Nothing => Value::Undefined,
    }
}

// One entry, the first or another.
fn write_entry(out: &mut [u8], at: usize, component: Sought, e: CommandEntry, first: bool) -> usize
    ensures { Wrote out.old at (entry_pieces command_kind first (told_of component e)) out.new result }
{
    let v = value_in(component, e);
    let code = e.code;
    let name = e.name;
    write_report::status::entry(out, at, Told::Command, first, code, name, v)
}

// The first count entries, in order.
fn write_entries(
    out: &mut [u8],
    at: usize,
    component: Sought,
    entries: [CommandEntry; 16],
    count: usize,
) -> usize
    ensures { Wrote out.old at (entries_pieces command_kind true (told_to component entries count)) out.new result }
{
    let mut end = at;
    for i in 0..count {
        let e = entry_in(entries, i);
        end = write_entry(out, end, component, e, i == 0);
    }
    end
}

// From the start of the part that is lent.
fn write_response(out: &mut [u8], q: Question, component: Sought, f: CommandFields) -> usize
    ensures { Wrote out.old 0 (pieces (response_of q command_kind (text_of f.component) (told component f))) out.new result }
{
    let named = f.component;
    let entries = f.entries;
    let end = packet_answer::begin(out, q, Told::Command, named);
    let end = write_entries(out, end, component, entries, f.count);
    write_report::status::finish(out, end)
}

// The acknowledgement, and the response in the rest of the output, lent from where it ends. Where it found no room, nothing follows.
fn answer_and_response(q: Question, component: Sought, f: CommandFields, out: &mut [u8]) -> usize
    ensures { Wrote out.old 0 (pieces (ack q.received.bytes) ++ pieces (response_of q command_kind (text_of f.component) (told component f))) out.new result }
{
    let end = packet_answer::ack(q, out);
    if out.len() < end {
        return end;
    }
    let more = write_response(&mut out[end..], q, component, f);
    end + more
}

// How many commands are handed over: none of an unknown component.
fn handed(f: CommandFields, component: Sought) -> usize
    ensures { (t : SiteTable) → result ≡ length (commands_of t f component) }
{
    match component {
        Sought::Is(_) => f.count,
        Sought::Nothing => 0,
    }
}

// The values as they were asked for, with the acknowledgement in one message or behind it.
fn reply(
    w: &mut [u64],
    t: &[u8],
    q: Question,
    component: Sought,
    f: CommandFields,
    out: &mut [u8],
) -> Answer
    requires { (length w.old ≡ site_words) × ((length t.now ≡ table_bytes) × (q.link < 4)) }
    ensures { (ps : List ℕ) → TakesIn (table_of t.now) q (answering (site_of ps w.old (table_of t.now)) q command_kind (text_of f.component) (told component f) (commands_of (table_of t.now) f component)) ps ps w.old w.new out.old out.new result }
{
    if q.included {
        let end = write_response(out, q, component, f);
        return packet_answer::respond_done(w, q.time, end, handed(f, component));
    }
    let id = q.identity;
    if packet_answer::is_busy(w, q.link) {
        return packet_answer::not_ack(w, q, reasons::BUSY, out);
    }
    if packet_answer::is_awaited(w, q.link, id) {
        return Answer::Refused(Refusal::IdentityAwaited);
    }
    let end = answer_and_response(q, component, f, out);
    packet_answer::hand_done(w, q, end, handed(f, component))
}

// "Bad value" of a range, "Unknown command", then the reply.
fn ordered(w: &mut [u64], t: &[u8], q: Question, f: CommandFields, out: &mut [u8]) -> Answer
    requires { (length w.old ≡ site_words) × ((length t.now ≡ table_bytes) × (q.link < 4)) }
    ensures { (ps : List ℕ) → TakesIn (table_of t.now) q (ordered_of (site_of ps w.old (table_of t.now)) q f (component_sought (table_of t.now) f.component)) ps ps w.old w.new out.old out.new result }
{
    let named = f.component;
    let component = packet_lookup::component(t, named);
    if keeps_ranges(t, f, component) {
        if passes(t, f, component) {
            return reply(w, t, q, component, f, out);
        }
        return packet_answer::not_ack(w, q, reasons::UNKNOWN_COMMAND, out);
    }
    packet_answer::not_ack(w, q, reasons::BAD_VALUE, out)
}

// A CommandRequest, or a CommandRequestAckIncluded.
pub fn command(
    w: &mut [u64],
    t: &[u8],
    q: Question,
    packet: &[u8],
    places: &[usize],
    out: &mut [u8],
) -> Answer
    requires { (length w.old ≡ site_words) × ((length t.now ≡ table_bytes) × ((q.link < 4) × Indexed packet.now places.now)) }
    ensures { (ps : List ℕ) → TakesIn (table_of t.now) q (command_taken (site_of ps w.old (table_of t.now)) q (command_at packet.now)) ps ps w.old w.new out.old out.new result }
{
    let f = read_commands::read_command(packet, places);
    let v = f.verdict;
    match v {
        Verdict::Good => ordered(w, t, q, f, out),
        Verdict::Missing => packet_answer::not_ack(w, q, reasons::MISSING_ELEMENT, out),
        Verdict::Bad => packet_answer::not_ack(w, q, reasons::BAD_VALUE, out),
    }
}

fn number_of(k: Sought) -> u8
    ensures { result ≡ number_of k }
{
    match k {
        Sought::Is(n) => n,
        Sought::Nothing => 0,
    }
}

// The word of an entry's command: its number is the high half, its value the low one.
fn word_of(t: &[u8], component: u8, e: CommandEntry) -> u64
    requires { length t.now ≡ table_bytes }
    ensures { result ≡ command_word (command_of (table_of t.now) component e) }
{
    let n = number_of(packet_lookup::command(t, component, e)) as u64;
    n * 4294967296 + number::word_of(e.value) as u64
}

// The words of the first count entries.
fn hand(t: &[u8], component: u8, entries: [CommandEntry; 16], count: usize, commands: &mut [u64])
    requires { (length t.now ≡ table_bytes) × ((length commands.old ≡ 16) × (count < 17)) }
    ensures { commands.new ≡ handed_over (commands_to (table_of t.now) component entries count) commands.old }
{
    for i in 0..count {
        commands[i] = word_of(t, component, entry_in(entries, i));
    }
}

// The commands of a packet that was done and hands them over.
pub fn hand_over(t: &[u8], packet: &[u8], commands: &mut [u64])
    requires { (length t.now ≡ table_bytes) × (length commands.old ≡ 16) }
    ensures { commands.new ≡ handed_over (commands_in (table_of t.now) packet.now) commands.old }
{
    let f = read_commands::read_command(packet, &[]);
    let named = f.component;
    let entries = f.entries;
    let component = packet_lookup::component(t, named);
    match component {
        Sought::Is(c) => hand(t, c, entries, f.count, commands),
        Sought::Nothing => {}
    }
}
