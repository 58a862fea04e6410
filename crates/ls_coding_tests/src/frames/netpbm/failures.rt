use super::*;

/// Images, each with a header of 11 bytes.
const FAILING: [&[u8]; 2] = [b"P5\n1 1\n255\n\x00", b"P5 1 1 256\n\x01\x00"];

#[test]
fn a_failed_read_is_named_and_counted_once(rt: HostRuntime) {
    for bytes in FAILING {
        for call in 0..bytes.len() {
            let failing = [call];
            let case = ("a failed read", bytes, Err(NetpbmFault::Io));
            let chunks = Chunks::new(bytes, 1, &failing);
            check_chunks(&rt, rt.alloc(), after_header(call, 11), &case, chunks);
        }
    }
}

#[test]
fn a_failed_read_is_not_the_end(rt: HostRuntime) {
    let case = ("a failed read", b"".as_slice(), Err(NetpbmFault::Io));
    let chunks = Chunks::new(b"", 1, &[0]);
    check_chunks(&rt, rt.alloc(), Memory::Ample, &case, chunks);
}

/// An image with a sample over maxval, and the number of the call after that sample's bytes.
const BAD_SAMPLES: [(&[u8], usize); 2] = [
    (b"P5 2 1 7\n\x08\x00", 10),
    (b"P5 2 1 256\n\x01\x01\x00\x00", 13),
];

#[test]
fn a_bad_sample_is_named_before_the_next_read(rt: HostRuntime) {
    for (bytes, call) in BAD_SAMPLES {
        let failing = [call];
        let case = ("a bad sample", bytes, Err(NetpbmFault::SampleTooLarge));
        let chunks = Chunks::new(bytes, 1, &failing);
        check_chunks(&rt, rt.alloc(), Memory::Refusable, &case, chunks);
    }
}
