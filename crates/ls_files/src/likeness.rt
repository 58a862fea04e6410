//! Guesses the format of a file from its first bytes.

/// Guesses the format of a file from its first bytes, and says what makes a film or a recording of it; `None` if no
/// format known here fits. 136 bytes are enough for all of them.
pub fn likeness_of(front: &[u8]) -> Option<&'static str> {
    for (place, mark, likeness) in LIKENESSES {
        if has_at(front, place, mark) {
            return Some(likeness);
        }
    }
    None
}

/// The marks of formats: where each is, its bytes, and what is said. The first that fits wins.
const LIKENESSES: [(usize, &[u8], &str); 18] = [
    (
        0,
        b"\xff\xd8\xff\xf7",
        "this seems to be a recording: play it, or list it by index",
    ),
    (0, b"\xff\xd8\xff\xe8", "this seems to be JPEG-LS: play it"),
    (
        0,
        b"\xff\xd8",
        "this seems to be JPEG: djpeg -pnm makes a film of it, if it isn't JPEG-LS, which is played",
    ),
    (0, b"P5", "this seems to be a film: list, code or record it"),
    (0, b"P6", "this seems to be a film: list, code or record it"),
    (
        0,
        b"P1",
        "this seems to be plain PBM: pnmtopnm and then pbmtopgm 1 1 make a film of it",
    ),
    (
        0,
        b"P2",
        "this seems to be plain PGM: pnmtopnm makes a film of it",
    ),
    (
        0,
        b"P3",
        "this seems to be plain PPM: pnmtopnm makes a film of it",
    ),
    (
        0,
        b"P4",
        "this seems to be PBM: pbmtopgm 1 1 makes a film of it",
    ),
    (
        0,
        b"P7",
        "this seems to be PAM: pamtopnm makes a film of it",
    ),
    (
        0,
        b"PF",
        "this seems to be PFM, whose samples aren't whole numbers",
    ),
    (
        0,
        b"Pf",
        "this seems to be PFM, whose samples aren't whole numbers",
    ),
    (
        0,
        b"\x89PNG\r\n\x1a\n",
        "this seems to be PNG: pngtopnm makes a film of it",
    ),
    (
        0,
        b"II*\0",
        "this seems to be TIFF: tifftopnm makes a film of it",
    ),
    (
        0,
        b"MM\0*",
        "this seems to be TIFF: tifftopnm makes a film of it",
    ),
    (
        0,
        b"YUV4MPEG2",
        "this seems to be Y4M: ffmpeg makes a film of it",
    ),
    (
        128,
        b"DICM",
        "this seems to be DICOM: dcm2pnm makes a film of it",
    ),
    (0, b"\x1f\x8b", "this seems to be compressed by gzip"),
];

/// Whether `mark` is at this place.
fn has_at(front: &[u8], place: usize, mark: &[u8]) -> bool {
    match front.get(place..) {
        Some(rest) => rest.starts_with(mark),
        None => false,
    }
}
