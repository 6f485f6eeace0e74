// The bytes of all names one after the other, with starts and lengths.
ghost use Rattle.std.specs.Prelude.{◌≡◌, ℕ, ◌+◌, ◌-◌, ◌≤◌, ◌<◌};
ghost use Rattle.names.specs.Table.{Spans};

use super::reasons;

const COUNT: usize = reasons::END;

pub const TABLE: [u8; 418] =
    *b"VersionWatchdogMessageAckMessageNotAckAlarmAggregatedStatusAggregatedStatusRequestStatusRequestStatusResponseStatusSubscribeStatusUnsubscribeStatusUpdateCommandRequestCommandResponse\
      StatusRequestAckIncludedStatusResponseAckIncludedCommandRequestAckIncludedCommandResponseAckIncluded\
      Missing elementBad valueUnexpectedNot readyRSMP versionSite idSXL versionUnknown componentUnknown alarmUnknown statusUnknown commandBusy";

pub const STARTS: [u16; COUNT] = [
    0, 7, 15, 25, 38, 43, 59, 82, 95, 109, 124, 141, 153, 167, 182, 206, 231, 256, 282, 297, 306,
    316, 325, 337, 344, 355, 372, 385, 399, 414,
];

pub const LENS: [u8; COUNT] =
    *b"\x07\x08\x0a\x0d\x05\x10\x17\x0d\x0e\x0f\x11\x0c\x0e\x0f\x18\x19\x19\x1a\x0f\x09\x0a\x09\x0c\x07\x0b\x11\x0d\x0e\x0f\x04";

#[derive(Clone, Copy)]
pub struct Span {
    pub start: usize,
    pub end: usize,
}

// Where name i stands in the table; past the last name an empty part.
pub fn span_of(i: usize) -> Span
    ensures { Spans i result.start result.end }
{
    if i < COUNT {
        let start = usize::from(STARTS[i]);
        Span {
            start,
            end: start + usize::from(LENS[i]),
        }
    } else {
        Span { start: 0, end: 0 }
    }
}
