// The identities that a link awaits an answer to: sixteen places, searched and changed at one place.
#![tactic(auto)]

ghost use Rattle.std.specs.Prelude.{◌≡◌, ◌+◌, leb, position};
ghost use Rattle.awaited.specs.Slot.{number_of, sequence_of, slot_of, purpose_of, is_free, awaits_for, is_late, free_slot};
ghost use Rattle.awaited.specs.Awaited.{nothing_awaited, add_of, find_of, take_of, how_many_of, late_of};

use identity::{Identity, same_identity};

// What a message was sent for: our Version, a Watchdog, the held record with this sequence number, or anything else.
#[derive(Clone, Copy)]
pub enum Purpose {
    Version,
    Watchdog,
    Entry(u32),
    Other,
}

#[derive(Clone, Copy)]
pub enum Found {
    For(Purpose),
    Nothing,
}

// A place. `purpose` is 0 where it is free; `sequence` is 0 but for a record.
#[repr(C)]
#[derive(Clone, Copy)]
pub struct Slot {
    pub time: u64,
    pub sequence: u32,
    pub purpose: u32,
    pub id: Identity,
}

#[repr(C)]
#[derive(Clone, Copy)]
pub struct Awaited {
    pub slots: [Slot; 16],
}

#[derive(Clone, Copy)]
pub struct Taken {
    pub awaited: Awaited,
    pub found: Found,
}

fn free_slot() -> Slot
    ensures { result ≡ free_slot }
{
    let id = Identity { bytes: [0u8; 16] };
    Slot {
        time: 0,
        sequence: 0,
        purpose: 0,
        id,
    }
}

fn number_of(sent: Purpose) -> u32
    ensures { result ≡ number_of sent }
{
    match sent {
        Purpose::Version => 1,
        Purpose::Watchdog => 2,
        Purpose::Entry(_) => 3,
        Purpose::Other => 4,
    }
}

fn sequence_of(sent: Purpose) -> u32
    ensures { result ≡ sequence_of sent }
{
    match sent {
        Purpose::Entry(sequence) => sequence,
        _ => 0,
    }
}

fn taken_by(id: Identity, time: u64, sent: Purpose) -> Slot
    ensures { result ≡ slot_of id time sent }
{
    Slot {
        time,
        sequence: sequence_of(sent),
        purpose: number_of(sent),
        id,
    }
}

#[tactic(auto, unfolding(crate::specs::Slot::purpose_of))]
fn sent_for(w: Slot) -> Purpose
    ensures { result ≡ purpose_of w }
{
    match w.purpose {
        1 => Purpose::Version,
        2 => Purpose::Watchdog,
        3 => Purpose::Entry(w.sequence),
        _ => Purpose::Other,
    }
}

#[tactic(auto, unfolding(crate::specs::Slot::awaits_for, crate::specs::Slot::same_identity))]
fn answers_to(w: Slot, id: Identity) -> bool
    ensures { result ≡ awaits_for id w }
{
    w.purpose != 0 && same_identity(w.id, id)
}

// Whether `time` lies `span` or longer after `since`.
pub fn elapsed(since: u64, span: u64, time: u64) -> bool
    ensures { result ≡ leb (since + span) time }
{
    since <= time && span <= time - since
}

#[tactic(auto, unfolding(crate::specs::Slot::is_late))]
fn is_late(w: Slot, time: u64) -> bool
    ensures { result ≡ is_late time w }
{
    w.purpose != 0 && elapsed(w.time, 30000, time)
}

// The first free place.
fn free_place(slots: &[Slot]) -> Option<usize>
    ensures { result ≡ position is_free slots.now }
{
    slots.iter().position(|w| w.purpose == 0)
}

// The first place of the identity.
fn place_of(slots: &[Slot], id: Identity) -> Option<usize>
    ensures { result ≡ position (awaits_for id) slots.now }
{
    slots.iter().position(|w| answers_to(*w, id))
}

impl Awaited {
    #[tactic(auto, unfolding(crate::specs::Awaited::nothing_awaited))]
    pub fn nothing() -> Awaited
        ensures { result ≡ nothing_awaited }
    {
        let free = free_slot();
        let slots = [free; 16];
        Awaited { slots }
    }

    // One more identity, sent at this time for this purpose; unchanged where sixteen are there.
    pub fn add(self, id: Identity, time: u64, sent: Purpose) -> Awaited
        ensures { result ≡ add_of self id time sent }
    {
        let mut slots = self.slots;
        if let Some(at) = free_place(&slots) {
            slots[at] = taken_by(id, time, sent);
        }
        Awaited { slots }
    }

    pub fn find(self, id: Identity) -> Found
        ensures { result ≡ find_of self id }
    {
        match place_of(&self.slots, id) {
            Some(at) => Found::For(sent_for(self.slots[at])),
            None => Found::Nothing,
        }
    }

    // An answer takes its one: what is awaited still, and what that one was sent for.
    pub fn take(self, id: Identity) -> Taken
        ensures { result ≡ take_of self id }
    {
        let mut slots = self.slots;
        let mut found = Found::Nothing;
        if let Some(at) = place_of(&slots, id) {
            found = Found::For(sent_for(slots[at]));
            slots[at] = free_slot();
        }
        let awaited = Awaited { slots };
        Taken { awaited, found }
    }

    pub fn how_many(self) -> usize
        ensures { result ≡ how_many_of self }
    {
        self.slots.iter().filter(|w| w.purpose != 0).count()
    }

    // Whether one has been awaited 30,000 ms or longer.
    pub fn late(self, time: u64) -> bool
        ensures { result ≡ late_of self time }
    {
        self.slots.iter().any(|w| is_late(*w, time))
    }
}
