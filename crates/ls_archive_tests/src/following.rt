use ls_archive::{Follower, IndexFault, Indexing};
use ls_frame::{Counted, write_bytes};
use ls_testing::films::TWO_CODESTREAMS;
use ls_testing::{Mishap, Sink};
use std::alloc::Global;
use std::io::Write;
use std::process::Abort;

/// The lines of `TWO_CODESTREAMS`. The sums are those of `sha256sum`.
const TWO_LINES: &[u8] = b"\
0 0 28 gray 1 1 255 8 3 7 21 64 14c5eaab40e8fcaf165a37d64d027b1357eb15846597672e4e87ef4c04547aa1\n\
1 28 28 gray 1 1 255 8 3 7 21 64 0efbec04d1400b04eceb24a245c12e080c3916e4fa2379af048299d12b0a0953\n";

/// What was written of a recording, whether each of its two writes succeeded, what was written of its index, and why
/// that stopped early, if it did.
#[derive(Drop)]
struct Followed {
    written: (bool, bool),
    recording: Sink,
    index: Sink,
    broken: Option<IndexFault>,
}

/// Writes a recording of two codestreams, each in chunks of at most `most` bytes, and its index. `None` if the index
/// isn't returned.
fn follow(alloc: Global, most: usize, index: Sink) -> Option<Followed> {
    let follower = Follower::new(alloc, Counted::new(index));
    let recording = Counted::new(Sink::new(most, Mishap::Nothing));
    let mut writer = Indexing::new(recording, Some(follower));
    let (first, second) = TWO_CODESTREAMS.split_at(28);
    let first = write_bytes(&mut writer, first).is_ok();
    let second = write_bytes(&mut writer, second).is_ok();
    let (recording, follower, broken) = writer.into_parts();
    Some(Followed {
        written: (first, second),
        recording: recording.into_inner(),
        index: follower?.into_inner().into_inner(),
        broken,
    })
}

/// What is written of an index, and why it stops early, if it does.
type Outcome<'a> = (&'a [u8], Option<IndexFault>);

/// Checks that a recording written in chunks of at most `most` bytes is written completely, and what is written of its
/// index.
fn check_following(
    rt: &impl Abort,
    alloc: Global,
    most: usize,
    index: Sink,
    want: Outcome<'_>,
    ample: bool,
) {
    let followed = follow(alloc, most, index).expect(rt, "an index");
    check_followed(rt, most, &followed, want, ample);
}

/// Checks that a recording was written completely, and what was written of its index; unless memory is ample, the index
/// may have stopped because an allocation failed.
fn check_followed(
    rt: &impl Abort,
    most: usize,
    followed: &Followed,
    want: Outcome<'_>,
    ample: bool,
) {
    let index = (followed.index.written(), followed.broken);
    let refused = !ample && index.1 == Some(IndexFault::NoMemory) && want.0.starts_with(index.0);
    let want = if refused { index } else { want };
    assert_eq!(rt;
        (followed.written, followed.recording.written(), index),
        ((true, true), TWO_CODESTREAMS, want),
        "pieces of {most}"
    );
}

fn check_pieces(rt: &impl Abort, alloc: Global, ample: bool) {
    for most in 1..30 {
        let index = Sink::new(4096, Mishap::Nothing);
        check_following(rt, alloc, most, index, (TWO_LINES, None), ample);
    }
}

#[test]
fn an_index_follows_its_recording_with_ample_memory(rt: HostRuntime) {
    check_pieces(&rt, rt.alloc(), true);
}

#[test]
fn an_index_follows_its_recording_or_memory_is_refused(rt: HostRuntime) {
    check_pieces(&rt, rt.alloc(), false);
}

/// Checks that an index whose write of this number fails stops there.
fn check_failed_write(rt: &impl Abort, alloc: Global, call: usize) {
    let index = Sink::new(1, Mishap::Fails(call));
    let front = TWO_LINES.get(..call).unwrap_or(&[]);
    let want = (front, Some(IndexFault::Output(call as u64)));
    check_following(rt, alloc, 4096, index, want, true);
}

#[test]
fn an_index_that_fails_leaves_the_recording_whole_with_ample_memory(rt: HostRuntime) {
    for call in 0..TWO_LINES.len() {
        check_failed_write(&rt, rt.alloc(), call);
    }
}

/// Writes a recording of two codestreams by one plain `write` each, with a flush after it, and its index. The last
/// component of the answer says whether all of this succeeded.
fn follow_plainly(alloc: Global) -> (Sink, Option<Sink>, bool) {
    let index = Counted::new(Sink::new(4096, Mishap::Nothing));
    let recording = Counted::new(Sink::new(4096, Mishap::Nothing));
    let mut writer = Indexing::new(recording, Some(Follower::new(alloc, index)));
    let (first, second) = TWO_CODESTREAMS.split_at(28);
    let mut all = true;
    for codestream in [first, second] {
        let written = writer.write(codestream);
        all = all && written.is_ok() && writer.flush().is_ok();
    }
    let (recording, follower, broken) = writer.into_parts();
    let index = follower.map(|follower| follower.into_inner().into_inner());
    (recording.into_inner(), index, all && broken.is_none())
}

#[test]
fn plain_writes_are_followed_and_flushes_change_nothing_with_ample_memory(rt: HostRuntime) {
    let (recording, index, all) = follow_plainly(rt.alloc());
    let index = index.expect(&rt, "an index");
    assert_eq!(&rt;
        (recording.written(), index.written(), all),
        (TWO_CODESTREAMS, TWO_LINES, true)
    );
}
