// Statuses told, and commands answered: a head, entries one by one, and a tail.
ghost use Rattle.std.specs.Prelude.{◌≡◌, [], ◌∷◌};
ghost use Rattle.label.specs.Label.{text_of};
ghost use Rattle.output.specs.Put.{Wrote};
ghost use Rattle.write_message.specs.Message.{status};
ghost use Rattle.write_message.specs.Message.Message.{statuses};
ghost use Rattle.write_message.specs.Pieces.{told_pieces, status_head, included_head, entry_start, known_pieces, value_pieces, entry_pieces, status_tail, pieces};
ghost use Rattle.write_message.specs.declared.Told.TheVariants.{Update as update_of};

use super::kinds;
use identity::Identity;
use label::Label;
use write_message::{Told, Value};

// What is told of a component behind the identity, up to the entries.
fn tell(out: &mut [u8], at: usize, kind: Told, component: Label, time: u64) -> usize
    ensures { Wrote out.old at (told_pieces kind (text_of component) time) out.new result }
{
    let end = write_message::of_component(out, at, component);
    let end = kinds::put_by(out, end, kind, b"\",\"sTs\":\"", b"\",\"cTS\":\"");
    let end = write_member::moment(out, end, time);
    kinds::put_by(out, end, kind, b"\",\"sS\":[", b"\",\"rvs\":[")
}

// A StatusResponse, StatusUpdate or CommandResponse up to its entries.
pub fn begin(
    out: &mut [u8],
    at: usize,
    kind: Told,
    id: Identity,
    component: Label,
    time: u64,
) -> usize
    ensures { Wrote out.old at (status_head kind id.bytes (text_of component) time) out.new result }
{
    let end = write_message::own_head(out, at, kinds::type_of(kind), id);
    tell(out, end, kind, component, time)
}

// A response that carries its acknowledgement up to its entries: it repeats the identity that was received.
pub fn begin_included(
    out: &mut [u8],
    at: usize,
    kind: Told,
    received: &[u8],
    component: Label,
    time: u64,
) -> usize
    requires { kind ≡ update_of → ⊥ }
    ensures { Wrote out.old at (included_head kind received.now (text_of component) time) out.new result }
{
    let end = write_message::repeated_head(out, at, kinds::included_type_of(kind), received);
    tell(out, end, kind, component, time)
}

fn start(out: &mut [u8], at: usize, kind: Told, first: bool) -> usize
    ensures { Wrote out.old at (entry_start kind first ∷ []) out.new result }
{
    if first {
        kinds::put_by(out, at, kind, b"{\"sCI\":\"", b"{\"cCI\":\"")
    } else {
        kinds::put_by(out, at, kind, b",{\"sCI\":\"", b",{\"cCI\":\"")
    }
}

// A value and how good it is, in the words for a status or for a command.
fn known(out: &mut [u8], at: usize, kind: Told, v: i32, status: &[u8], command: &[u8]) -> usize
    ensures { Wrote out.old at (known_pieces kind v status.now command.now) out.new result }
{
    let end = kinds::put_by(out, at, kind, b"\",\"s\":\"", b"\",\"v\":\"");
    let end = number::put_i32(out, end, v);
    kinds::put_by(out, end, kind, status, command)
}

fn value(out: &mut [u8], at: usize, kind: Told, v: Value) -> usize
    ensures { Wrote out.old at (value_pieces kind v) out.new result }
{
    match v {
        Value::Recent(n) => known(
            out,
            at,
            kind,
            n,
            b"\",\"q\":\"recent\"}",
            b"\",\"age\":\"recent\"}",
        ),
        Value::Old(n) => known(
            out,
            at,
            kind,
            n,
            b"\",\"q\":\"old\"}",
            b"\",\"age\":\"old\"}",
        ),
        Value::Unknown => kinds::put_by(
            out,
            at,
            kind,
            b"\",\"s\":null,\"q\":\"unknown\"}",
            b"\",\"v\":null,\"age\":\"unknown\"}",
        ),
        Value::Undefined => kinds::put_by(
            out,
            at,
            kind,
            b"\",\"s\":null,\"q\":\"undefined\"}",
            b"\",\"v\":null,\"age\":\"undefined\"}",
        ),
    }
}

// The first entry, or another behind the ones before it.
pub fn entry(
    out: &mut [u8],
    at: usize,
    kind: Told,
    first: bool,
    code: Label,
    name: Label,
    v: Value,
) -> usize
    ensures { Wrote out.old at (entry_pieces kind first (status (text_of code) (text_of name) v)) out.new result }
{
    let end = start(out, at, kind, first);
    let end = write_member::label(out, end, code);
    let end = write_member::label_behind(out, end, b"\",\"n\":\"", name);
    value(out, end, kind, v)
}

// What follows the entries.
pub fn finish(out: &mut [u8], at: usize) -> usize
    ensures { Wrote out.old at status_tail out.new result }
{
    output::put_bytes(out, at, b"]}\x0c")
}

// A StatusUpdate with one entry.
pub fn update(
    out: &mut [u8],
    at: usize,
    id: Identity,
    component: Label,
    time: u64,
    code: Label,
    name: Label,
    v: Value,
) -> usize
    ensures { Wrote out.old at (pieces (statuses update_of id.bytes (text_of component) time (status (text_of code) (text_of name) v ∷ []))) out.new result }
{
    let end = begin(out, at, Told::Update, id, component, time);
    let end = entry(out, end, Told::Update, true, code, name, v);
    finish(out, end)
}
