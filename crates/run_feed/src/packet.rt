// A packet as a call reads it.
ghost use Rattle.std.specs.Prelude.{◌≡◌};
ghost use Rattle.json_find.specs.Index.{Indexed};
ghost use Rattle.json_packet.specs.Packet.{is_packet as is_packet_of};

// Bytes that were judged, and the places where members were noted.
#[derive(Clone, Copy)]
pub struct Packet<'a> {
    pub s: &'a [u8],
    pub places: &'a [usize],
    pub is_packet: bool,
    ghost judged: { is_packet ≡ is_packet_of s.now },
    ghost noted: { Indexed s.now places.now },
}

impl<'a> Packet<'a> {
    pub fn judge(s: &'a [u8], places: &'a mut [usize]) -> Packet<'a> {
        let j = json_packet::judge(s, json_packet::FIXED_KEY, places);
        Packet {
            s,
            places: &places[..j.count],
            is_packet: j.packet,
        }
    }
}
