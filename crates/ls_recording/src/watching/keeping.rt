//! The thread that keeps the films' files while they are recorded: it settles those of each film that ends, removes
//! earlier files that are replaced, and brings what is written onto the disk. Only it waits for a disk, and it holds no
//! lock meanwhile.
use super::Watch;
use super::schedule::Syncs;
use ls_files::{Makes, Opens};
use ls_frame::NetpbmFault;
use ls_opening::Film;
use ls_recorder::LaneFault;
use std::sync::Wait;
use std::time::Clock;

/// Until the recording ends, settles the files of each film that ends, removes earlier files that are replaced, and
/// brings pieces onto the disk once they are finished, and what is written as often as it is asked for. Notes on the
/// watch which films are on the disk, and which can't be brought there.
pub fn keep_files<R, O>(
    rt: &R,
    opener: O,
    watch: &Watch<'_, R>,
    mut syncs: Syncs,
    films: &mut [Film<'_, O>],
)
where
    R: Clock + Wait,
    O: Makes + Copy + Drop,
{
    for _ in rt.forever() {
        watch.wait_for_files(syncs.wait(watch.age()));
        if watch.is_over() {
            break;
        }
        settle_ended(&opener, watch, films);
        if syncs.is_due(watch.age()) {
            sync_so_far(watch, films);
        }
    }
}

/// Settles the files of each film that has ended since; of the others, brings finished pieces onto the disk, and
/// removes earlier files that the recordings have replaced.
fn settle_ended<R, O>(opener: &O, watch: &Watch<'_, R>, films: &mut [Film<'_, O>])
where
    R: Clock,
    O: Makes + Copy + Drop,
{
    for (number, film) in films.iter_mut().enumerate() {
        let written = watch.written(number);
        match watch.ended(number) {
            Some(outcome) => {
                if settle(opener, film, outcome, written) {
                    watch.note_settled(number);
                }
            }
            None => {
                if film.sync_finished() | film.replace(written) {
                    watch.note_unsynced(number);
                }
            }
        }
    }
}

/// Settles the files of a film that has ended with this result and this number of codestreams, and returns whether they
/// are on the disk. Leaves a film without a frame for the end, if it may have been stopped.
fn settle<O: Makes + Copy + Drop>(
    opener: &O,
    film: &mut Film<'_, O>,
    outcome: Result<u64, LaneFault>,
    written: u64,
) -> bool {
    match outcome {
        Err(fault) if written == 0 && may_be_stop(opener, fault) => false,
        _ => film.settle(outcome.is_err(), written).recording.is_ok(),
    }
}

/// Whether a fault may be the failed read by which a lane stops because the program was asked to. At the end its source
/// says whether it is, and what there is to say is said then.
pub fn may_be_stop<O: Opens>(opener: &O, fault: LaneFault) -> bool {
    matches!(fault, LaneFault::Input(_, NetpbmFault::Io)) && opener.is_stopping()
}

/// Brings what is written of each film that goes on onto the disk.
fn sync_so_far<R, O>(watch: &Watch<'_, R>, films: &mut [Film<'_, O>])
where
    R: Clock,
    O: Makes + Copy + Drop,
{
    for (number, film) in films.iter_mut().enumerate() {
        if watch.ended(number).is_none() && film.sync_so_far(watch.written(number)) {
            watch.note_unsynced(number);
        }
    }
}
