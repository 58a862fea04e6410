//! The limits on the numbers in the words, and on the number of films. Those of `--preset` and `--frames` are in the
//! modules that read them.

/// The most films that are recorded side by side.
pub const MOST_FILMS: usize = 16;

/// The least and the most workers.
pub const WORKERS: (i64, i64) = (1, 16);

/// The least and the most frames that may wait for a worker.
pub const QUEUE: (i64, i64) = (1, 256);

/// The least and the most frames of a film that may be in progress.
pub const WINDOW: (i64, i64) = (1, 64);

/// The least and the most seconds between two syncs of a recording, of which 0 stands for none before its end; and those
/// after which a recording ends.
pub const SYNC: (i64, i64) = (0, 86_400);

pub const SECONDS: (i64, i64) = (1, 4_294_967_295);

/// The least and the most frames that are recorded of a film.
pub const COUNT: (i64, i64) = (1, 4_294_967_295);

/// The numbers that `replay` is given: more than a queue accepts, which is said once the steps are read.
pub const SOURCES: (i64, i64) = (0, 255);

pub const CAPACITY: (i64, i64) = (0, 4_294_967_295);
