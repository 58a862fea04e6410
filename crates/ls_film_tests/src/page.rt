use crate::testing::check_bytes;
use ls_film::{FilmFault, PlayFault, code_film, play};
use ls_frame::Counted;
use std::alloc::Global;

/// The recording of a film: the codestreams of its frames.
fn record(alloc: Global, film: &[u8]) -> Result<Vec<u8>, FilmFault> {
    let mut reader = film;
    let mut writer = Counted::new(Vec::new(alloc));
    code_film(alloc, &mut reader, &mut writer)?;
    Ok(writer.into_inner())
}

/// The film of a recording: the images of its frames.
fn show(alloc: Global, recording: &[u8]) -> Result<Vec<u8>, PlayFault> {
    match play(alloc, recording, Counted::new(Vec::new(alloc))) {
        Ok((_frames, _rest, shown)) => Ok(shown.into_inner()),
        Err((fault, _rest, _shown)) => Err(fault),
    }
}

#[test]
fn the_page_records_a_film_and_shows_it_with_ample_memory(rt: HostRuntime) {
    let film = ls_testing::films::TWO_IMAGES;
    let recording = record(rt.alloc(), film).expect(&rt, "memory");
    check_bytes(
        &rt,
        "the recording",
        &recording,
        ls_testing::films::TWO_CODESTREAMS,
    );
    let shown = show(rt.alloc(), &recording).expect(&rt, "memory");
    check_bytes(&rt, "the film", &shown, film);
}
