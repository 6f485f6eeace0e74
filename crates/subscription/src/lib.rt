// One subscription: of one link to one status.
#![tactic(auto)]

ghost use Rattle.std.specs.Prelude.{◌≡◌};
ghost use Rattle.subscription.specs.Subscription.{none as none_of, subscribed, issues_on, due_at, tick_of};

use awaited::elapsed;

// since: the time of the subscribing call, or of the last tick that issued; seconds: uRt, 0 for none;
// state: 0 no subscription, 1 without sOc, 2 with sOc.
#[repr(C)]
#[derive(Clone, Copy)]
pub struct Subscription {
    pub since: u64,
    pub seconds: u32,
    pub state: u32,
}

#[derive(Clone, Copy)]
pub struct Ticked {
    pub subscription: Subscription,
    pub issues: bool,
}

impl Subscription {
    // No subscription: where none was made, and after it was ended.
    pub fn none() -> Subscription
        ensures { result ≡ none_of }
    {
        Subscription {
            since: 0,
            seconds: 0,
            state: 0,
        }
    }

    // A new one replaces what stood there. It issues a record at once.
    pub fn subscribe(seconds: u32, soc: bool, time: u64) -> Subscription
        ensures { result ≡ subscribed seconds soc time }
    {
        Subscription {
            since: time,
            seconds: seconds,
            state: if soc { 2 } else { 1 },
        }
    }

    // Whether it issues a record when the status' value is set.
    pub fn on_value(self, changed: bool) -> bool
        ensures { result ≡ issues_on self changed }
    {
        changed && self.state == 2
    }

    #[tactic(auto, unfolding(crate::specs::Subscription::due_at))]
    fn due(self, time: u64) -> bool
        ensures { result ≡ due_at self time }
    {
        if self.state == 0 {
            return false;
        }
        if self.seconds == 0 {
            return false;
        }
        elapsed(self.since, 1000 * u64::from(self.seconds), time)
    }

    #[tactic(auto, unfolding(crate::specs::Subscription::tick_of))]
    pub fn on_tick(self, time: u64) -> Ticked
        ensures { result ≡ tick_of self time }
    {
        if self.due(time) {
            Ticked {
                subscription: Subscription {
                    since: time,
                    ..self
                },
                issues: true,
            }
        } else {
            Ticked {
                subscription: self,
                issues: false,
            }
        }
    }
}
