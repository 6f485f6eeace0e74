// What a packet says: its head, and the fields of the messages without lists.
#![tactic(auto)]

ghost use Rattle.std.specs.Prelude.{◌≡◌, min, drop};
ghost use Rattle.basis.specs.Lists.{same_bytes};
ghost use Rattle.basis.specs.Text.{text};
ghost use Rattle.json_text.specs.Copied.{no_copy};
ghost use Rattle.json_value.specs.Reader.{skip_ws};
ghost use Rattle.json_find.specs.Index.{Indexed};
ghost use Rattle.json_packet.specs.Packet.{is_packet};
ghost use Rattle.read_head.specs.Word.{word, word_here, word_found, word_at, element_of, word_of};
ghost use Rattle.read_head.specs.Values.{worst as worst_of, verdict_of, no_text, got_label, no_time, got_time, an_order, got_order, order_for};
ghost use Rattle.basis.specs.Pick.{pick};
ghost use Rattle.identity.specs.Read.{not_found};
ghost use Rattle.read_head.specs.Head.{identity_of, type_of, kind_for, included_for, kind_number, ignored as ignored_head, answered as answered_by, asked as asked_by, head_for, head_by, head_at};
ghost use Rattle.read_head.specs.Small.{watchdog_at, aggregated_at, alarm_from, alarm_at};

use calendar::Time;
use identity::{Identity, ReadIdentity};
use json_text::{Copied, Read};
use label::Label;
use names::{Found, types};

// Whether an element is as it must be, and else the reason.
#[derive(Clone, Copy)]
pub enum Verdict {
    Good,
    Missing,
    Bad,
}

// What a supervisor orders of an alarm.
#[derive(Clone, Copy)]
pub enum Order {
    Request,
    Acknowledge,
    Suspend,
    Resume,
}

// The types that are taken, besides the two answers.
#[derive(Clone, Copy)]
pub enum Kind {
    Version,
    Watchdog,
    Alarm,
    AggregatedStatusRequest,
    StatusRequest,
    StatusSubscribe,
    StatusUnsubscribe,
    CommandRequest,
    Unexpected,
}

// An answer, or a request with what its mType is; what is neither is ignored.
#[derive(Clone, Copy)]
pub enum Class {
    Ignored,
    Acked,
    NotAcked,
    Asked(Verdict, Kind),
}

// The 36 characters of a request's mId, as they were received.
#[derive(Clone, Copy)]
pub struct Received {
    pub bytes: [u8; 36],
}

// An answer has the identity that it answers, a request the characters of its own, and whether its response is to carry the acknowledgement.
#[derive(Clone, Copy)]
pub struct Head {
    pub class: Class,
    pub received: Received,
    pub identity: Identity,
    pub included: bool,
}

#[derive(Clone, Copy)]
pub struct GotLabel {
    pub verdict: Verdict,
    pub label: Label,
}

// A time, and how many decimals stood there.
#[derive(Clone, Copy)]
pub struct GotTime {
    pub verdict: Verdict,
    pub time: u64,
    pub decimals: usize,
}

#[derive(Clone, Copy)]
pub struct GotOrder {
    pub verdict: Verdict,
    pub order: Order,
}

#[derive(Clone, Copy)]
pub struct AlarmFields {
    pub verdict: Verdict,
    pub component: Label,
    pub code: Label,
    pub order: Order,
}

// The copy of an element that may be a string.
#[derive(Clone, Copy)]
pub struct Element {
    pub there: bool,
    pub copy: Copied,
}

fn no_copy() -> Copied
    ensures { result ≡ no_copy }
{
    Copied {
        length: 0,
        bytes: [0u8; 36],
        ok: false,
    }
}

fn unusable(there: bool) -> Element
    ensures { result ≡ record { there = there; copy = no_copy } }
{
    Element {
        there,
        copy: no_copy(),
    }
}

// The value at a place, copied if it is a string.
fn value_at(s: &[u8], at: usize) -> Element
    ensures { result ≡ element_of (word_here (drop at s.now)) }
{
    if s.len() <= at {
        return unusable(true);
    }
    if s[at] != b'"' {
        return unusable(true);
    }
    Element {
        there: true,
        copy: json_text::copy_text(s, at + 1, 36),
    }
}

// The element whose value a lookup found.
pub fn element_at(s: &[u8], found: Read) -> Element
    ensures { result ≡ element_of (word_found s.now found) }
{
    match found {
        Read::Bad => unusable(false),
        Read::End(v) => value_at(s, v),
    }
}

// The element with a name of the object at a place.
pub fn element_in(s: &[u8], at: usize, name: &[u8]) -> Element
    ensures { result ≡ element_of (word_at (drop at s.now) name.now) }
{
    element_at(s, json_find::member(s, at, name))
}

// The element with a name of the packet's object, whose entries' places may be noted.
pub fn element_of(s: &[u8], places: &[usize], name: &[u8]) -> Element
    requires { Indexed s.now places.now }
    ensures { result ≡ element_of (word_at (skip_ws s.now) name.now) }
{
    element_at(s, json_find::member_of(s, places, name))
}

pub fn at_most_36(n: usize) -> usize
    ensures { result ≡ min n 36 }
{
    if n <= 36 { n } else { 36 }
}

fn no_label(v: Verdict) -> GotLabel
    ensures { result ≡ no_text v }
{
    GotLabel {
        verdict: v,
        label: label::none(),
    }
}

fn label_text(d: &[u8]) -> GotLabel
    ensures { result ≡ got_label (word d.now) }
{
    if number::is_label(d) {
        GotLabel {
            verdict: Verdict::Good,
            label: label::of(d),
        }
    } else {
        no_label(Verdict::Bad)
    }
}

pub fn label_of(e: Element) -> GotLabel
    ensures { result ≡ got_label (word_of e) }
{
    if e.there {
        let c = e.copy;
        if c.ok {
            let n = at_most_36(c.length);
            let bytes = c.bytes;
            label_text(&bytes[0..n])
        } else {
            no_label(Verdict::Bad)
        }
    } else {
        no_label(Verdict::Missing)
    }
}

fn no_time(verdict: Verdict) -> GotTime
    ensures { result ≡ no_time verdict }
{
    GotTime {
        verdict,
        time: 0,
        decimals: 0,
    }
}

fn time_text(d: &[u8]) -> GotTime
    ensures { result ≡ got_time (word d.now) }
{
    let t = calendar::read_time(d);
    match t {
        Time::Is(time, decimals) => GotTime {
            verdict: Verdict::Good,
            time,
            decimals,
        },
        Time::No => no_time(Verdict::Bad),
    }
}

fn time_of(e: Element) -> GotTime
    ensures { result ≡ got_time (word_of e) }
{
    if e.there {
        let c = e.copy;
        if c.ok {
            let n = at_most_36(c.length);
            let bytes = c.bytes;
            time_text(&bytes[0..n])
        } else {
            no_time(Verdict::Bad)
        }
    } else {
        no_time(Verdict::Missing)
    }
}

fn an_order(verdict: Verdict, order: Order) -> GotOrder
    ensures { result ≡ an_order verdict order }
{
    GotOrder { verdict, order }
}

pub fn is_word(d: &[u8], fixed: &[u8]) -> bool
    ensures { result ≡ same_bytes d.now fixed.now }
{
    check::same(d, fixed)
}

fn order_text(d: &[u8]) -> GotOrder
    ensures { result ≡ order_for d.now }
{
    if is_word(d, b"Request") {
        return an_order(Verdict::Good, Order::Request);
    }
    if is_word(d, b"Acknowledge") {
        return an_order(Verdict::Good, Order::Acknowledge);
    }
    if is_word(d, b"Suspend") {
        return an_order(Verdict::Good, Order::Suspend);
    }
    if is_word(d, b"Resume") {
        return an_order(Verdict::Good, Order::Resume);
    }
    an_order(Verdict::Bad, Order::Request)
}

fn order_of(e: Element) -> GotOrder
    ensures { result ≡ got_order (word_of e) }
{
    if e.there {
        let c = e.copy;
        if c.ok {
            let n = at_most_36(c.length);
            let bytes = c.bytes;
            order_text(&bytes[0..n])
        } else {
            an_order(Verdict::Bad, Order::Request)
        }
    } else {
        an_order(Verdict::Missing, Order::Request)
    }
}

pub fn worst(a: Verdict, b: Verdict) -> Verdict
    ensures { result ≡ worst_of a b }
{
    match a {
        Verdict::Missing => Verdict::Missing,
        Verdict::Bad => match b {
            Verdict::Missing => Verdict::Missing,
            Verdict::Bad => Verdict::Bad,
            Verdict::Good => Verdict::Bad,
        },
        Verdict::Good => b,
    }
}

// The used string that is the element whose value a lookup found.
pub fn label_at(s: &[u8], found: Read) -> GotLabel
    ensures { result ≡ got_label (word_found s.now found) }
{
    label_of(element_at(s, found))
}

// The used string that is the element with a name of the object at a place.
pub fn label_in(s: &[u8], at: usize, name: &[u8]) -> GotLabel
    ensures { result ≡ got_label (word_at (drop at s.now) name.now) }
{
    label_of(element_in(s, at, name))
}

// The used string that is the packet's own element with a name.
pub fn own_label(s: &[u8], places: &[usize], name: &[u8]) -> GotLabel
    requires { Indexed s.now places.now }
    ensures { result ≡ got_label (word_at (skip_ws s.now) name.now) }
{
    label_of(element_of(s, places, name))
}

// Watchdog.
pub fn read_watchdog(s: &[u8], places: &[usize]) -> GotTime
    requires { Indexed s.now places.now }
    ensures { result ≡ watchdog_at s.now }
{
    time_of(element_of(s, places, b"wTs"))
}

// AggregatedStatusRequest.
pub fn read_aggregated(s: &[u8], places: &[usize]) -> GotLabel
    requires { Indexed s.now places.now }
    ensures { result ≡ aggregated_at s.now }
{
    own_label(s, places, b"cId")
}

fn own_order(s: &[u8], places: &[usize]) -> GotOrder
    requires { Indexed s.now places.now }
    ensures { result ≡ got_order (word_at (skip_ws s.now) (text "aSp")) }
{
    order_of(element_of(s, places, b"aSp"))
}

// Alarm.
pub fn read_alarm(s: &[u8], places: &[usize]) -> AlarmFields
    requires { Indexed s.now places.now }
    ensures { result ≡ alarm_at s.now }
{
    let component = own_label(s, places, b"cId");
    let code = own_label(s, places, b"aCId");
    let order = own_order(s, places);
    alarm_of(component, code, order)
}

fn alarm_of(c: GotLabel, a: GotLabel, o: GotOrder) -> AlarmFields
    ensures { result ≡ alarm_from c a o }
{
    let component = c.label;
    let code = a.label;
    let x = c.verdict;
    let y = a.verdict;
    let z = o.verdict;
    let verdict = worst(x, worst(y, z));
    let order = o.order;
    AlarmFields {
        verdict,
        component,
        code,
        order,
    }
}

fn no_identity() -> ReadIdentity
    ensures { result ≡ not_found }
{
    ReadIdentity {
        found: false,
        id: Identity { bytes: [0u8; 16] },
    }
}

fn identity_of(e: Element) -> ReadIdentity
    ensures { result ≡ identity_of (word_of e) }
{
    if e.there {
        let c = e.copy;
        if c.ok {
            let n = at_most_36(c.length);
            let bytes = c.bytes;
            identity::read_identity(&bytes[0..n])
        } else {
            no_identity()
        }
    } else {
        no_identity()
    }
}

fn type_of(e: Element) -> Found
    ensures { result ≡ type_of (word_of e) }
{
    if e.there {
        let c = e.copy;
        if c.ok {
            let n = at_most_36(c.length);
            let bytes = c.bytes;
            names::find_type(&bytes[0..n])
        } else {
            Found::Nothing
        }
    } else {
        Found::Nothing
    }
}

fn word_verdict(d: &[u8], fixed: &[u8]) -> Verdict
    ensures { result ≡ pick (same_bytes d.now fixed.now) Verdict.Good Verdict.Bad }
{
    if is_word(d, fixed) {
        Verdict::Good
    } else {
        Verdict::Bad
    }
}

// Whether an element is a word.
fn verdict_of(e: Element, fixed: &[u8]) -> Verdict
    ensures { result ≡ verdict_of (λ d. same_bytes d fixed.now) (word_of e) }
{
    if e.there {
        let c = e.copy;
        if c.ok {
            let n = at_most_36(c.length);
            let bytes = c.bytes;
            word_verdict(&bytes[0..n], fixed)
        } else {
            Verdict::Bad
        }
    } else {
        Verdict::Missing
    }
}

fn kind_for(i: usize) -> Kind
    ensures { result ≡ kind_for i }
{
    if i == types::VERSION {
        return Kind::Version;
    }
    if i == types::WATCHDOG {
        return Kind::Watchdog;
    }
    if i == types::ALARM {
        return Kind::Alarm;
    }
    if i == types::AGGREGATED_STATUS_REQUEST {
        return Kind::AggregatedStatusRequest;
    }
    if i == types::STATUS_REQUEST {
        return Kind::StatusRequest;
    }
    if i == types::STATUS_SUBSCRIBE {
        return Kind::StatusSubscribe;
    }
    if i == types::STATUS_UNSUBSCRIBE {
        return Kind::StatusUnsubscribe;
    }
    if i == types::COMMAND_REQUEST {
        return Kind::CommandRequest;
    }
    if i == types::STATUS_REQUEST_ACK_INCLUDED {
        return Kind::StatusRequest;
    }
    if i == types::COMMAND_REQUEST_ACK_INCLUDED {
        return Kind::CommandRequest;
    }
    Kind::Unexpected
}

// Whether a type is answered by one message, which carries its acknowledgement.
fn included_for(i: usize) -> bool
    ensures { result ≡ included_for i }
{
    if i == types::STATUS_REQUEST_ACK_INCLUDED {
        return true;
    }
    i == types::COMMAND_REQUEST_ACK_INCLUDED
}

// The kinds as numbers: 0 is none that is taken.
pub fn kind_number(k: Kind) -> u8
    ensures { result ≡ kind_number k }
{
    match k {
        Kind::Unexpected => 0,
        Kind::Version => 1,
        Kind::Watchdog => 2,
        Kind::Alarm => 3,
        Kind::AggregatedStatusRequest => 4,
        Kind::StatusRequest => 5,
        Kind::StatusSubscribe => 6,
        Kind::StatusUnsubscribe => 7,
        Kind::CommandRequest => 8,
    }
}

fn ignored() -> Head
    ensures { result ≡ ignored_head }
{
    Head {
        class: Class::Ignored,
        received: Received { bytes: [0u8; 36] },
        identity: Identity { bytes: [0u8; 16] },
        included: false,
    }
}

fn answered_with(class: Class, o: ReadIdentity) -> Head
    ensures { result ≡ answered_by class Verdict.Good o }
{
    if o.found {
        let identity = o.id;
        Head {
            class,
            received: Received { bytes: [0u8; 36] },
            identity,
            included: false,
        }
    } else {
        ignored()
    }
}

fn answered(s: &[u8], places: &[usize], class: Class, v: Verdict) -> Head
    requires { Indexed s.now places.now }
    ensures { result ≡ answered_by class v (identity_of (word_at (skip_ws s.now) (text "oMId"))) }
{
    match v {
        Verdict::Good => answered_with(class, identity_of(element_of(s, places, b"oMId"))),
        Verdict::Missing => ignored(),
        Verdict::Bad => ignored(),
    }
}

fn asked(s: &[u8], places: &[usize], kind: Kind, included: bool, v: Verdict) -> Head
    requires { Indexed s.now places.now }
    ensures { result ≡ asked_by kind included v (word_at (skip_ws s.now) (text "mId")) }
{
    let e = element_of(s, places, b"mId");
    let o = identity_of(e);
    if o.found {
        let c = e.copy;
        let bytes = c.bytes;
        Head {
            class: Class::Asked(v, kind),
            received: Received { bytes },
            identity: Identity { bytes: [0u8; 16] },
            included,
        }
    } else {
        ignored()
    }
}

fn head_for(s: &[u8], places: &[usize], i: usize, v: Verdict) -> Head
    requires { Indexed s.now places.now }
    ensures { result ≡ head_for i v (word_at (skip_ws s.now)) }
{
    if i == types::MESSAGE_ACK {
        return answered(s, places, Class::Acked, v);
    }
    if i == types::MESSAGE_NOT_ACK {
        return answered(s, places, Class::NotAcked, v);
    }
    asked(s, places, kind_for(i), included_for(i), v)
}

fn head_by(s: &[u8], places: &[usize]) -> Head
    requires { Indexed s.now places.now }
    ensures { result ≡ head_by (word_at (skip_ws s.now)) }
{
    let v = verdict_of(element_of(s, places, b"mType"), b"rSMsg");
    let t = type_of(element_of(s, places, b"type"));
    match t {
        Found::At(i) => head_for(s, places, i, v),
        Found::Nothing => asked(s, places, Kind::Unexpected, false, v),
    }
}

// What kind of packet it is: nothing but a packet is taken.
pub fn read_head(s: &[u8], places: &[usize], packet: bool) -> Head
    requires { (packet ≡ is_packet s.now) × Indexed s.now places.now }
    ensures { result ≡ head_at s.now }
{
    if packet {
        head_by(s, places)
    } else {
        ignored()
    }
}
