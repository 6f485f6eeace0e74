// What a CommandRequest says.
#![tactic(auto)]

ghost use Rattle.std.specs.Prelude.{◌≡◌, drop};
ghost use Rattle.basis.specs.Text.{text};
ghost use Rattle.json_value.specs.Reader.{skip_ws};
ghost use Rattle.json_find.specs.Entries.{entries_at};
ghost use Rattle.json_find.specs.Index.{Indexed};
ghost use Rattle.read_versions.specs.Numeral.{int_in};
ghost use Rattle.read_head.specs.Word.{word_found, word_of};
ghost use Rattle.read_lists.specs.Gather.{gather};
ghost use Rattle.read_lists.specs.Items.{items_at, list_at};
ghost use Rattle.read_commands.specs.Command.{no_value, valued, got_value, command_of, no_command, command_found, Steps, command_of_item, no_commands, push_command, commands_of, command_from, command_at};

use json_find::FourFound;
use json_text::Read;
use label::Label;
use number::Int;
use read_head::{GotLabel, Verdict};

#[derive(Clone, Copy)]
pub struct GotValue {
    pub verdict: Verdict,
    pub value: i32,
}

// A command that is asked for, and the value.
#[derive(Clone, Copy)]
pub struct CommandEntry {
    pub code: Label,
    pub name: Label,
    pub value: i32,
}

#[derive(Clone, Copy)]
pub struct GotCommand {
    pub verdict: Verdict,
    pub entry: CommandEntry,
}

// An entry, and the place of the next.
#[derive(Clone, Copy)]
pub struct CommandStep {
    pub got: GotCommand,
    pub next: Read,
}

#[derive(Clone, Copy)]
pub struct CommandList {
    pub verdict: Verdict,
    pub count: usize,
    pub entries: [CommandEntry; 16],
}

#[derive(Clone, Copy)]
pub struct CommandFields {
    pub verdict: Verdict,
    pub component: Label,
    pub count: usize,
    pub entries: [CommandEntry; 16],
}

fn no_value(verdict: Verdict) -> GotValue
    ensures { result ≡ no_value verdict }
{
    GotValue { verdict, value: 0 }
}

fn valued_by(n: Int) -> GotValue
    ensures { result ≡ valued n }
{
    match n {
        Int::Is(value) => GotValue {
            verdict: Verdict::Good,
            value,
        },
        Int::No => no_value(Verdict::Bad),
    }
}

fn value_text(d: &[u8]) -> GotValue
    ensures { result ≡ valued (int_in d.now) }
{
    valued_by(number::read_i32(d))
}

fn value_of(e: read_head::Element) -> GotValue
    ensures { result ≡ got_value (word_of e) }
{
    if e.there {
        let c = e.copy;
        if c.ok {
            let n = read_head::at_most_36(c.length);
            let bytes = c.bytes;
            value_text(&bytes[0..n])
        } else {
            no_value(Verdict::Bad)
        }
    } else {
        no_value(Verdict::Missing)
    }
}

fn value_at(s: &[u8], found: Read) -> GotValue
    ensures { result ≡ got_value (word_found s.now found) }
{
    value_of(read_head::element_at(s, found))
}

fn command_of(c: GotLabel, n: GotLabel, o: GotLabel, v: GotValue) -> GotCommand
    ensures { result ≡ command_of c n o v }
{
    let x = c.verdict;
    let y = n.verdict;
    let z = o.verdict;
    let w = v.verdict;
    let code = c.label;
    let name = n.label;
    let verdict = read_head::worst(read_head::worst(x, y), read_head::worst(z, w));
    GotCommand {
        verdict,
        entry: CommandEntry {
            code,
            name,
            value: v.value,
        },
    }
}

fn command_found(s: &[u8], f: FourFound) -> GotCommand
    ensures { result ≡ command_found s.now f }
{
    let code = f.first;
    let name = f.second;
    let order = f.third;
    let value = f.fourth;
    let c = read_head::label_at(s, code);
    let n = read_head::label_at(s, name);
    let o = read_head::label_at(s, order);
    command_of(c, n, o, value_at(s, value))
}

fn no_command() -> CommandEntry
    ensures { result ≡ no_command }
{
    CommandEntry {
        code: label::none(),
        name: label::none(),
        value: 0,
    }
}

// The entry of arg at a place, and the place of the next.
fn command_entry(s: &[u8], at: usize) -> CommandStep
    ensures { Steps s.now at result }
{
    let k = json_value::space(s, at);
    if read_lists::begins(s, k, b'{') {
        let f = json_find::four(s, k, b"cCI", b"n", b"cO", b"v");
        let end = f.end;
        return CommandStep {
            got: command_found(s, f),
            next: json_find::step_from(s, end, b']'),
        };
    }
    CommandStep {
        got: GotCommand {
            verdict: Verdict::Bad,
            entry: no_command(),
        },
        next: json_find::step(s, at, b']'),
    }
}

fn no_commands(verdict: Verdict) -> CommandList
    ensures { result ≡ no_commands verdict }
{
    CommandList {
        verdict,
        count: 0,
        entries: [no_command(); 16],
    }
}

// The commands of the array at a place.
fn commands_in(s: &[u8], at: usize) -> CommandList
    ensures { result ≡ gather (λ l x. push_command l (command_of_item x)) (no_commands Verdict.Good) (items_at (entries_at 0x5b 0x5d (drop at s.now))) }
{
    let mut verdict = Verdict::Good;
    let mut count: usize = 0;
    let mut entries = [no_command(); 16];
    let p = json_find::inside(s, at, b'[', b']');
    let Read::End(start) = p else {
        return CommandList {
            verdict,
            count,
            entries,
        };
    };
    let mut i = start;
    loop {
        let t = command_entry(s, i);
        let g = t.got;
        let v = g.verdict;
        let entry = g.entry;
        verdict = read_head::worst(verdict, v);
        if count < 16 {
            entries[count] = entry;
            count += 1;
        } else {
            verdict = read_head::worst(verdict, Verdict::Bad);
        }
        let m = t.next;
        match m {
            Read::Bad => return CommandList {
                verdict,
                count,
                entries,
            },
            Read::End(e) => i = e,
        }
    }
}

fn commands_of(s: &[u8], places: &[usize]) -> CommandList
    requires { Indexed s.now places.now }
    ensures { result ≡ commands_of (list_at (skip_ws s.now) (text "arg")) }
{
    let p = json_find::member_of(s, places, b"arg");
    match p {
        Read::Bad => no_commands(Verdict::Missing),
        Read::End(v) => {
            if read_lists::begins(s, v, b'[') {
                commands_in(s, v)
            } else {
                no_commands(Verdict::Bad)
            }
        }
    }
}

fn command_from(c: GotLabel, l: CommandList) -> CommandFields
    ensures { result ≡ command_from c l }
{
    let a = c.verdict;
    let b = l.verdict;
    let component = c.label;
    let entries = l.entries;
    CommandFields {
        verdict: read_head::worst(a, b),
        component,
        count: l.count,
        entries,
    }
}

// CommandRequest.
pub fn read_command(s: &[u8], places: &[usize]) -> CommandFields
    requires { Indexed s.now places.now }
    ensures { result ≡ command_at s.now }
{
    command_from(
        read_head::own_label(s, places, b"cId"),
        commands_of(s, places),
    )
}
