use crate::bits::testing::{check, check_bytes};
use ls_bits::{Data, Stop, data_of};

const FRONTS: &[(&[u8], usize, Stop)] = &[
    (&[0x80, 0xff, 0xd9], 1, Stop::Marker),
    (&[0x80, 0xff, 0xff, 0xd9], 1, Stop::Marker),
    (&[0xff, 0x00, 0xff, 0xd9], 2, Stop::Marker),
    (&[0x80, 0xff], 1, Stop::End),
    (&[0xff, 0x7f], 2, Stop::End),
    (&[0xff, 0x80], 0, Stop::Marker),
    (&[0xff], 0, Stop::End),
    (&[], 0, Stop::End),
];

#[test]
fn data_ends_before_a_marker_or_a_lone_ff(rt: HostRuntime) {
    for (bytes, len, stop) in FRONTS {
        let (len, stop) = (*len, *stop);
        check(&rt, bytes, &data_of(bytes), &Data { len, stop });
    }
}

/// Data to compare with that of two bytes before a marker, and whether they are equal.
const OTHERS: &[(usize, Stop, bool)] = &[
    (2, Stop::Marker, true),
    (1, Stop::Marker, false),
    (2, Stop::End, false),
];

#[test]
fn data_and_stops_are_printed_and_compared_by_their_fields(rt: HostRuntime) {
    let data = Data {
        len: 2,
        stop: Stop::Marker,
    };
    let Ok(text) = format!(in rt.alloc(); "{data:?} {:?}", Stop::End) else {
        return;
    };
    check_bytes(&rt, text.as_bytes(), b"Data { len: 2, stop: Marker } End");
    for (len, stop, is_equal) in OTHERS {
        let (len, stop) = (*len, *stop);
        check(&rt, &[], &(data == Data { len, stop }), is_equal);
    }
}
