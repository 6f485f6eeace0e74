// The written messages, put piece by piece into a lent output, each with its form feed: how they begin, answers and greeting. The others are in `reports`.
#![tactic(auto)]

ghost use Rattle.label.specs.Label.{text_of};
ghost use Rattle.names.specs.Names.{name_of};
ghost use Rattle.basis.specs.Text.{text};
ghost use Rattle.output.specs.Put.{Wrote};
ghost use Rattle.write_message.specs.Pieces.{head_pieces, own_pieces, component_pieces, about_pieces};

use identity::Identity;
use label::Label;

pub mod answers; // answers.rt: MessageAck and MessageNotAck
pub mod greeting; // greeting.rt: Version and Watchdog

// An alarm's states and its last event. The event: 0 Issue, 1 Acknowledge, 2 Suspend. The category: 0 T, 1 D.
#[derive(Clone, Copy)]
pub struct AlarmState {
    pub time: u64,
    pub event: u16,
    pub category: u8,
    pub priority: u8,
    pub acknowledged: bool,
    pub active: bool,
    pub suspended: bool,
}

// What is told of a status or of a command: a value that is up to date or not, none so far, or of no known component.
#[derive(Clone, Copy)]
pub enum Value {
    Recent(i32),
    Old(i32),
    Unknown,
    Undefined,
}

// The types that tell statuses, and the one that answers commands.
#[derive(Clone, Copy)]
pub enum Told {
    Response,
    Update,
    Command,
}

// How every message begins: mType, type (name `kind`), what goes before the identity, and the identity.
pub fn head(out: &mut [u8], at: usize, kind: usize, before: &[u8], id: &[u8]) -> usize
    ensures { Wrote out.old at (head_pieces (name_of kind) before.now id.now) out.new result }
{
    let end = output::put_bytes(out, at, b"{\"mType\":\"rSMsg\",\"type\":\"");
    let end = names::put(out, end, kind);
    output::put2(out, end, before, id)
}

// How a message with an identity of ours begins.
pub fn own_head(out: &mut [u8], at: usize, kind: usize, id: Identity) -> usize
    ensures { Wrote out.old at (own_pieces (name_of kind) id.bytes) out.new result }
{
    let t = identity::identity_text(id);
    head(out, at, kind, b"\",\"mId\":\"", &t)
}

// How a message that repeats a received identity begins.
pub fn repeated_head(out: &mut [u8], at: usize, kind: usize, received: &[u8]) -> usize
    ensures { Wrote out.old at (head_pieces (name_of kind) (text "\",\"oMId\":\"") received.now) out.new result }
{
    head(out, at, kind, b"\",\"oMId\":\"", received)
}

// How a message about a component goes on behind its identity.
pub fn of_component(out: &mut [u8], at: usize, component: Label) -> usize
    ensures { Wrote out.old at (component_pieces (text_of component)) out.new result }
{
    write_member::label_behind(
        out,
        at,
        b"\",\"ntsOId\":\"\",\"xNId\":\"\",\"cId\":\"",
        component,
    )
}

// How a message about a component begins.
pub fn about(out: &mut [u8], at: usize, kind: usize, id: Identity, component: Label) -> usize
    ensures { Wrote out.old at (about_pieces (name_of kind) id.bytes (text_of component)) out.new result }
{
    let end = own_head(out, at, kind, id);
    of_component(out, end, component)
}
