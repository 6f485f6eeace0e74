// What a call answers, and the numbers of document 01 for it.
#![tactic(auto)]

ghost use Rattle.std.specs.Prelude.{◌≡◌};
ghost use Rattle.answer.specs.Number.{refusal_number, number_of};

// The last millisecond of 9999.
pub const LAST_TIME: u64 = 253402300799999;

#[derive(Clone, Copy)]
pub enum Refusal {
    Ignored,
    NoSuchLink,
    NoSuchItem,
    ShortOutput,
    BadTime,
    WrongPhase,
    NothingDue,
    ManyAwaited,
    IdentityAwaited,
    SequenceSpent,
    NotAccepted,
    LongPacket,
}

// What a done call says: hint is a time in milliseconds where hinted is not 0; bit l of closed is set where link l was closed; commands is how
// many are handed over.
#[repr(C)]
#[derive(Clone, Copy)]
pub struct Report {
    pub hint: u64,
    pub written: u32,
    pub closed: u16,
    pub hinted: u16,
    pub commands: u64,
}

#[derive(Clone, Copy)]
pub enum Answer {
    Done(Report),
    Refused(Refusal),
}

pub fn refusal_number(r: Refusal) -> u32
    ensures { result ≡ refusal_number r }
{
    match r {
        Refusal::Ignored => 1,
        Refusal::NoSuchLink => 2,
        Refusal::NoSuchItem => 3,
        Refusal::ShortOutput => 4,
        Refusal::BadTime => 5,
        Refusal::WrongPhase => 6,
        Refusal::NothingDue => 7,
        Refusal::ManyAwaited => 8,
        Refusal::IdentityAwaited => 9,
        Refusal::SequenceSpent => 10,
        Refusal::NotAccepted => 11,
        Refusal::LongPacket => 12,
    }
}

pub fn number_of(a: Answer) -> u32
    ensures { result ≡ number_of a }
{
    match a {
        Answer::Done(_) => 0,
        Answer::Refused(r) => refusal_number(r),
    }
}
