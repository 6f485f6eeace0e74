// The messages about a component: its alarms, its aggregated status, its statuses and the commands to it.
#![tactic(auto)]

pub mod alarms; // alarms.rt: Alarm
pub mod aggregate; // aggregate.rt: AggregatedStatus
mod kinds; // kinds.rt: the three types that status.rt writes, and what it puts by them
pub mod status; // status.rt: StatusResponse, StatusUpdate and CommandResponse
