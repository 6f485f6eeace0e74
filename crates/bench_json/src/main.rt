// Judges each packet from standard input as often as its case's kind says, and writes how often it was accepted. bench/packets.py
// measures it.
#![tactic(auto)]

use std::fmt::Write;

fn main() {
    run_feed::answer_each(&mut [0; 8192], &mut [0; 64], |case, line| {
        let accepted = (0..run_feed::times(case.kind))
            .filter(|_| json_packet::is_packet(case.body()))
            .count();
        write!(line, "{accepted}")
    });
}
