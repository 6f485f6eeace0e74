// What C and Rust call, over memory that the host lends: the pool in 520 words, a site in 657, its table in 6,178 bytes, one function a call, each
// the call's own definition with its number. Where a length is another: number 14, and nothing is changed.
#![tactic(auto)]

ghost use Rattle.std.specs.Prelude.{◌≡◌};
ghost use Rattle.sitec.specs.Outcome.{report_in, outcome_of, misfit as misfit_of};

use answer::{Answer, Report};

pub mod inputs; // inputs.rt: alarms, statuses, the aggregated status, time
pub mod links; // links.rt: connect and disconnect
pub mod messages; // messages.rt: packet and pump
pub mod readings; // readings.rt: what a host reads of a site
pub mod starting; // starting.rt: a site begins

// The number of the answer, and what a done call reports; zeros where it is refused.
#[repr(C)]
#[derive(Clone, Copy)]
pub struct Outcome {
    pub hint: u64,
    pub number: u32,
    pub written: u32,
    pub closed: u32,
    pub hinted: u32,
    pub commands: u64,
}

fn report_in(a: Answer) -> Report
    ensures { result ≡ report_in a }
{
    match a {
        Answer::Done(r) => r,
        Answer::Refused(_) => site::nothing(),
    }
}

pub fn outcome_of(a: Answer) -> Outcome
    ensures { result ≡ outcome_of a }
{
    let r = report_in(a);
    Outcome {
        hint: r.hint,
        number: answer::number_of(a),
        written: r.written,
        closed: r.closed as u32,
        hinted: r.hinted as u32,
        commands: r.commands,
    }
}

// What was lent is not as long as it has to be.
pub fn misfit() -> Outcome
    ensures { result ≡ misfit_of }
{
    Outcome {
        hint: 0,
        number: 14,
        written: 0,
        closed: 0,
        hinted: 0,
        commands: 0,
    }
}
