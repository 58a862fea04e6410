use crate::frames::testing::{Mishap, Sink, check, check_items};
use ls_frame::{Counted, Outlet, WriteFault, write_bytes};
use std::process::Abort;

/// Checks the result of writing `bytes`, the number of failures, and the bytes written. Returns the number of calls.
fn check_written(
    rt: &impl Abort,
    bytes: &[u8],
    sink: Sink<'_>,
    want: (Result<(), WriteFault>, u64),
    written: &[u8],
) -> usize {
    let mut writer = Counted::new(sink);
    let got = write_bytes(&mut writer, bytes);
    let got = (got, Outlet::failures(&writer));
    check(rt, "a write, and failures", written.len(), &got, &want);
    let sink = writer.into_inner();
    check_items(rt, "its bytes", written.len(), sink.written(), written);
    sink.calls
}

#[test]
fn all_bytes_go_out_in_order(rt: HostRuntime) {
    let bytes = b"abcdefg".as_slice();
    for (most, want) in [(1, 7), (2, 4), (5, 2), (16, 1)] {
        let sink = Sink::new(most, &[], Mishap::Fails);
        let calls = check_written(&rt, bytes, sink, (Ok(()), 0), bytes);
        check(&rt, "calls", most, &calls, &want);
    }
}

/// Checks writing to a writer that accepts one byte per call, and whose call after the bytes `before` goes wrong.
fn check_fault(rt: &impl Abort, bytes: &[u8], before: &[u8], mishap: Mishap) {
    let call = before.len();
    let failing = [call];
    let want = Err(WriteFault { written: call });
    let sink = Sink::new(1, &failing, mishap);
    check_written(rt, bytes, sink, (want, 1), before);
}

#[test]
fn a_fault_says_how_many_bytes_went_out(rt: HostRuntime) {
    let bytes = b"abcdefg";
    for mishap in [Mishap::Fails, Mishap::TakesNothing] {
        for i in 0..bytes.len() {
            check_fault(&rt, bytes, &bytes[..i], mishap);
        }
    }
}

#[test]
fn no_bytes_take_no_call(rt: HostRuntime) {
    let sink = Sink::new(1, &[0], Mishap::Fails);
    let calls = check_written(&rt, b"", sink, (Ok(()), 0), b"");
    check(&rt, "calls", 0, &calls, &0);
}
