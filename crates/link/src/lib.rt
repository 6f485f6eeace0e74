// The life of one link. What has happened in this life is kept; the phase follows from it.
#![tactic(auto)]

ghost use Rattle.std.specs.Prelude.{◌≡◌, ◌*◌};
ghost use Rattle.awaited.specs.declared.Purpose.TheVariants.{Entry, Other};
ghost use Rattle.awaited.specs.Awaited.{find_of, late_of};
ghost use Rattle.link.specs.Phase.{greeted, beaten, phase_of, is_up, is_beating, beats_in, takes_in, closes_for, closes_on};
ghost use Rattle.link.specs.Fields.{closed_link};
ghost use Rattle.link.specs.Steps.{connect_of, version_out_of, may_judge_of, version_accepted_of, may_beat_of, watchdog_out_of, watchdog_taken_of, message_out_of, answered_by, aggregated_passed_of, alarm_passed_of, crowded_of};
ghost use Rattle.link.specs.Due.{alarms_for, due_up, due_of};

use awaited::{Awaited, Found, Purpose, elapsed};
use identity::Identity;

#[derive(Clone, Copy)]
pub enum Phase {
    Down,
    Greeting,
    Beating,
    Up,
}

#[derive(Clone, Copy)]
pub enum Role {
    Primary,
    Secondary,
}

// What pump sends next: an alarm by its number, or the oldest held record that is not sent.
#[derive(Clone, Copy)]
pub enum Due {
    Nothing,
    Version,
    Watchdog,
    Aggregated,
    Alarm(u32),
    Entry,
}

#[repr(C)]
#[derive(Clone, Copy)]
pub struct Link {
    pub awaited: Awaited,
    // when the last Watchdog of this life went out
    pub beat: u64,
    // the next alarm of the first pass
    pub alarm: u32,
    // the chosen version
    pub major: u32,
    pub minor: u32,
    pub patch: u32,
    // what has happened in this life: ours out and acknowledged, theirs accepted or taken
    pub connected: bool,
    pub versionout: bool,
    pub versionacked: bool,
    pub versiontaken: bool,
    pub watchdogout: bool,
    pub watchdogacked: bool,
    pub watchdogtaken: bool,
    pub aggregatedout: bool,
}

// What an answer comes to: the next link, what its identity was awaited for, and whether it closes: a MessageNotAck to our Version, or to
// our Watchdog while Beating.
#[derive(Clone, Copy)]
pub struct Answered {
    pub link: Link,
    pub found: Found,
    pub closes: bool,
}

fn is_up(p: Phase) -> bool
    ensures { result ≡ is_up p }
{
    matches!(p, Phase::Up)
}

fn is_beating(p: Phase) -> bool
    ensures { result ≡ is_beating p }
{
    matches!(p, Phase::Beating)
}

fn beats_in(p: Phase, out: bool) -> bool
    ensures { result ≡ beats_in p out }
{
    match p {
        Phase::Down | Phase::Greeting => false,
        Phase::Beating => !out,
        Phase::Up => true,
    }
}

fn takes_in(p: Phase) -> bool
    ensures { result ≡ takes_in p }
{
    matches!(p, Phase::Beating | Phase::Up)
}

fn closes_for(p: Phase, sent: Purpose) -> bool
    ensures { result ≡ closes_for p sent }
{
    match sent {
        Purpose::Version => true,
        Purpose::Watchdog => is_beating(p),
        Purpose::Entry(_) | Purpose::Other => false,
    }
}

fn closes_on(p: Phase, found: Found) -> bool
    ensures { result ≡ closes_on p found }
{
    match found {
        Found::Nothing => false,
        Found::For(sent) => closes_for(p, sent),
    }
}

fn alarms_for(role: Role, alarms: u32) -> u32
    ensures { result ≡ alarms_for role alarms }
{
    match role {
        Role::Primary => alarms,
        Role::Secondary => 0,
    }
}

impl Link {
    // A link that is Down: nothing awaited, all zero.
    pub fn closed() -> Link
        ensures { result ≡ closed_link }
    {
        let awaited = Awaited::nothing();
        Link {
            awaited,
            beat: 0,
            alarm: 0,
            major: 0,
            minor: 0,
            patch: 0,
            connected: false,
            versionout: false,
            versionacked: false,
            versiontaken: false,
            watchdogout: false,
            watchdogacked: false,
            watchdogtaken: false,
            aggregatedout: false,
        }
    }

    #[tactic(auto, unfolding(crate::specs::Phase::greeted))]
    fn is_greeted(self) -> bool
        ensures { result ≡ greeted self }
    {
        self.versionout && self.versionacked && self.versiontaken
    }

    #[tactic(auto, unfolding(crate::specs::Phase::beaten))]
    fn is_beaten(self) -> bool
        ensures { result ≡ beaten self }
    {
        self.watchdogout && self.watchdogacked && self.watchdogtaken
    }

    #[tactic(auto, unfolding(crate::specs::Phase::phase_of))]
    pub fn phase(self) -> Phase
        ensures { result ≡ phase_of self }
    {
        if !self.connected {
            Phase::Down
        } else if !self.is_greeted() {
            Phase::Greeting
        } else if !self.is_beaten() {
            Phase::Beating
        } else {
            Phase::Up
        }
    }

    #[tactic(auto, unfolding(crate::specs::Steps::connect_of))]
    pub fn connect(self) -> Link
        ensures { result ≡ connect_of self }
    {
        if self.connected {
            return self;
        }
        Link {
            connected: true,
            ..Link::closed()
        }
    }

    // Our Version went out.
    #[tactic(auto, unfolding(crate::specs::Steps::version_out_of))]
    pub fn version_out(self, id: Identity, time: u64) -> Link
        ensures { result ≡ version_out_of self id time }
    {
        if self.versionout || !self.connected {
            return self;
        }
        Link {
            awaited: self.awaited.add(id, time, Purpose::Version),
            versionout: true,
            ..self
        }
    }

    // Whether their Version is to be judged: ours is out, theirs is not accepted yet.
    #[tactic(auto, unfolding(crate::specs::Steps::may_judge_of))]
    pub fn may_judge_version(self) -> bool
        ensures { result ≡ may_judge_of self }
    {
        self.versionout && !self.versiontaken
    }

    #[tactic(auto, unfolding(crate::specs::Steps::version_accepted_of))]
    pub fn version_accepted(self, major: u32, minor: u32, patch: u32) -> Link
        ensures { result ≡ version_accepted_of self major minor patch }
    {
        if !self.may_judge_version() {
            return self;
        }
        Link {
            major,
            minor,
            patch,
            versiontaken: true,
            ..self
        }
    }

    #[tactic(auto, unfolding(crate::specs::Steps::may_beat_of))]
    fn may_beat(self) -> bool
        ensures { result ≡ may_beat_of self }
    {
        beats_in(self.phase(), self.watchdogout)
    }

    // A Watchdog of ours went out.
    #[tactic(auto, unfolding(crate::specs::Steps::watchdog_out_of))]
    pub fn watchdog_out(self, id: Identity, time: u64) -> Link
        ensures { result ≡ watchdog_out_of self id time }
    {
        if !self.may_beat() {
            return self;
        }
        Link {
            awaited: self.awaited.add(id, time, Purpose::Watchdog),
            beat: time,
            watchdogout: true,
            ..self
        }
    }

    // A Watchdog of theirs was taken.
    #[tactic(auto, unfolding(crate::specs::Steps::watchdog_taken_of))]
    pub fn watchdog_taken(self) -> Link
        ensures { result ≡ watchdog_taken_of self }
    {
        if !takes_in(self.phase()) {
            return self;
        }
        Link {
            watchdogtaken: true,
            ..self
        }
    }

    #[tactic(auto, unfolding(crate::specs::Steps::message_out_of))]
    fn message_out(self, id: Identity, time: u64, sent: Purpose) -> Link
        ensures { result ≡ message_out_of self id time sent }
    {
        let awaited = if is_up(self.phase()) {
            self.awaited.add(id, time, sent)
        } else {
            self.awaited
        };
        Link { awaited, ..self }
    }

    // A message that carries the held record with this sequence number went out.
    pub fn entry_out(self, id: Identity, time: u64, sequence: u32) -> Link
        ensures { result ≡ message_out_of self id time (Entry sequence) }
    {
        self.message_out(id, time, Purpose::Entry(sequence))
    }

    // A message that carries no record went out.
    pub fn other_out(self, id: Identity, time: u64) -> Link
        ensures { result ≡ message_out_of self id time Other }
    {
        self.message_out(id, time, Purpose::Other)
    }

    // What the identity is awaited for.
    pub fn awaits(self, id: Identity) -> Found
        ensures { result ≡ find_of self.awaited id }
    {
        self.awaited.find(id)
    }

    // Whether one has been awaited 30,000 ms or longer.
    pub fn late(self, time: u64) -> bool
        ensures { result ≡ late_of self.awaited time }
    {
        self.awaited.late(time)
    }

    // Whether 8 or more are awaited: pump sends nothing then.
    #[tactic(auto, unfolding(crate::specs::Steps::crowded_of))]
    pub fn crowded(self) -> bool
        ensures { result ≡ crowded_of self }
    {
        8 <= self.awaited.how_many()
    }

    // The answer MessageAck or MessageNotAck to an identity.
    #[tactic(auto, unfolding(crate::specs::Steps::answered_of, crate::specs::Steps::closes_of, crate::specs::Steps::noted, crate::specs::Steps::noted_for, crate::specs::Steps::removed_of))]
    pub fn answered(self, id: Identity, acknowledged: bool) -> Answered
        ensures { result ≡ answered_by self id acknowledged }
    {
        let before = self.awaited;
        let taken = before.take(id);
        let found = taken.found;
        let after = taken.awaited;
        let mut link = self;
        let mut closes = false;
        link.awaited = after;
        if acknowledged {
            match found {
                Found::Nothing => {}
                Found::For(sent) => match sent {
                    Purpose::Version => link.versionacked = true,
                    Purpose::Watchdog => link.watchdogacked = true,
                    Purpose::Entry(_) => {}
                    Purpose::Other => {}
                },
            }
        } else if closes_on(self.phase(), found) {
            link = Link::closed();
            closes = true;
        }
        Answered {
            link,
            found,
            closes,
        }
    }

    // The first pass goes on: its AggregatedStatus went out.
    #[tactic(auto, unfolding(crate::specs::Steps::aggregated_passed_of))]
    pub fn aggregated_passed(self) -> Link
        ensures { result ≡ aggregated_passed_of self }
    {
        if !is_up(self.phase()) {
            return self;
        }
        Link {
            aggregatedout: true,
            ..self
        }
    }

    // The first pass goes on: its next alarm went out.
    #[tactic(auto, unfolding(crate::specs::Steps::alarm_passed_of))]
    pub fn alarm_passed(self) -> Link
        ensures { result ≡ alarm_passed_of self }
    {
        if !is_up(self.phase()) {
            return self;
        }
        Link {
            alarm: self.alarm.saturating_add(1),
            ..self
        }
    }

    #[tactic(auto, unfolding(crate::specs::Due::due_up))]
    fn due_up(self, time: u64, period: u32, role: Role, alarms: u32, unsent: bool) -> Due
        ensures { result ≡ due_up self time period role alarms unsent }
    {
        if elapsed(self.beat, u64::from(period) * 1000, time) {
            return Due::Watchdog;
        }
        if self.aggregatedout {
            if self.alarm < alarms_for(role, alarms) {
                return Due::Alarm(self.alarm);
            }
            if unsent {
                return Due::Entry;
            }
            return Due::Nothing;
        }
        Due::Aggregated
    }

    // What is due: `period` in seconds, `alarms` how many the site table has, `unsent` whether a held record is not sent.
    #[tactic(auto, unfolding(crate::specs::Due::due_of))]
    pub fn due(self, time: u64, period: u32, role: Role, alarms: u32, unsent: bool) -> Due
        ensures { result ≡ due_of self time period role alarms unsent }
    {
        match self.phase() {
            Phase::Down => Due::Nothing,
            Phase::Greeting => {
                if self.versionout {
                    Due::Nothing
                } else {
                    Due::Version
                }
            }
            Phase::Beating => {
                if self.watchdogout {
                    Due::Nothing
                } else {
                    Due::Watchdog
                }
            }
            Phase::Up => self.due_up(time, period, role, alarms, unsent),
        }
    }
}
