//! Has a film be read no further than its first frames, and notes when the bytes of each came and with which frame the
//! next piece of its recording begins.
ghost use Rattle.std.specs.Prelude.{◌≡◌};
ghost use Rattle.ls_frame.specs.View.Devices.{risen};

use ls_command::Cut;
use ls_frame::{Failed, Feed, FeedFault};
use std::alloc::{AllocError, Global};
use std::io;
use std::io::Read;
use std::sync::atomic::{AtomicBool, AtomicU64, Ordering};

/// How far a film is read, and when its bytes came, as its reader and the gate of its recording tell each other in the
/// thread that reads the film; and with which frame the next piece of its recording begins, as the gate tells its writer
/// in the thread that writes.
#[derive(Drop)]
pub struct Course {
    /// The number of frames after which the film is read no further, if there is one, and whether so many were read.
    count: Option<u64>,
    is_reached: AtomicBool,
    /// Whether times are wanted.
    is_timed: bool,
    /// Whether the reader was asked for a frame, and has taken no byte of it yet.
    is_before: AtomicBool,
    /// When the first byte came of the frame that is read, or was read last; and when those bytes came that were read
    /// last.
    first: AtomicU64,
    came: AtomicU64,
    /// Where its recording is cut into pieces, if it is.
    cut: Option<Cut>,
    /// If that is by time, the age of the recording when each frame was read, in nanoseconds, at its number modulo their
    /// count.
    ages: Vec<AtomicU64>,
    /// The number of frames that were written; how many of them are in the piece that is written; and the age at which
    /// the first of these was read.
    written: AtomicU64,
    frames: AtomicU64,
    began: AtomicU64,
    /// Whether a piece was begun since that was last asked.
    is_new: AtomicBool,
}

/// The nanoseconds in a second.
const SECOND: u64 = 1_000_000_000;

impl Course {
    /// The courses of `films` films: `count` frames are read of each, if there is a count, times are noted if they are
    /// wanted, and the recordings are cut into pieces, if they are; none with nothing of this. At most `window` frames of
    /// a film are read and not yet written.
    pub fn of_each(
        alloc: Global,
        films: usize,
        count: Option<u64>,
        is_timed: bool,
        cut: Option<Cut>,
        window: usize,
    ) -> Result<Vec<Course>, AllocError> {
        let mut courses = Vec::new(alloc);
        if count.is_some() || is_timed || cut.is_some() {
            for _film in 0..films {
                courses.push(Course {
                    count,
                    is_reached: AtomicBool::new(false),
                    is_timed,
                    is_before: AtomicBool::new(false),
                    first: AtomicU64::new(0),
                    came: AtomicU64::new(0),
                    cut,
                    ages: ages_of(alloc, cut, window)?,
                    written: AtomicU64::new(0),
                    frames: AtomicU64::new(0),
                    began: AtomicU64::new(0),
                    is_new: AtomicBool::new(false),
                })?;
            }
        }
        Ok(courses)
    }

    /// Notes that the reader is asked for a frame.
    pub fn begin(&self) {
        if self.is_timed {
            self.is_before.store(true, Ordering::SeqCst);
        }
    }

    /// Notes that the frame of this number was read.
    pub fn note(&self, number: u64) {
        if self.count == Some(number.saturating_add(1)) {
            self.is_reached.store(true, Ordering::SeqCst);
        }
    }

    /// When the first byte and the last came of the frame that was read last, in nanoseconds since
    /// 1970-01-01T00:00:00Z; 0 if no times are wanted or the clock couldn't be read.
    pub fn times(&self) -> (u64, u64) {
        (
            self.first.load(Ordering::SeqCst),
            self.came.load(Ordering::SeqCst),
        )
    }

    /// Where the film's file puts the time at which bytes came, if times are wanted.
    pub fn arrival(&self) -> Option<&AtomicU64> {
        if self.is_timed {
            Some(&self.came)
        } else {
            None
        }
    }

    /// Whether it has to be told the age of the recording when a frame was read.
    pub fn is_aged(&self) -> bool {
        !self.ages.is_empty()
    }

    /// Notes the age of the recording when the frame of this number was read, in nanoseconds.
    pub fn note_age(&self, number: u64, age: u64) {
        if let Some(place) = self.age_at(number) {
            place.store(age, Ordering::SeqCst);
        }
    }

    /// Notes that a frame was written whole.
    pub fn wrote(&self) {
        let number = self.written.load(Ordering::SeqCst);
        let frames = self.frames.load(Ordering::SeqCst);
        if frames == 0 {
            self.began.store(self.age_of(number), Ordering::SeqCst);
        }
        self.frames
            .store(frames.saturating_add(1), Ordering::SeqCst);
        self.written
            .store(number.saturating_add(1), Ordering::SeqCst);
    }

    /// Whether the next piece begins with the frame that is written next, or is being written: the piece has as many
    /// frames as are asked for, or the frame was read so many seconds after the first one of the piece.
    pub fn is_due(&self) -> bool {
        let frames = self.frames.load(Ordering::SeqCst);
        match self.cut {
            Some(Cut::Frames(most)) => frames >= u64::from(most),
            Some(Cut::Seconds(most)) => {
                let age = self.age_of(self.written.load(Ordering::SeqCst));
                let lasted = age.saturating_sub(self.began.load(Ordering::SeqCst));
                frames > 0 && lasted >= u64::from(most).saturating_mul(SECOND)
            }
            None => false,
        }
    }

    /// Notes that the next piece is begun.
    pub fn begin_piece(&self) {
        self.frames.store(0, Ordering::SeqCst);
        self.is_new.store(true, Ordering::SeqCst);
    }

    /// The age of the recording when the frame of this number was read; 0 if it isn't cut by time.
    fn age_of(&self, number: u64) -> u64 {
        match self.age_at(number) {
            Some(place) => place.load(Ordering::SeqCst),
            None => 0,
        }
    }

    fn age_at(&self, number: u64) -> Option<&AtomicU64> {
        if self.ages.is_empty() {
            return None;
        }
        self.ages.get((number % self.ages.len() as u64) as usize)
    }

    /// Whether a piece was begun since this was last asked.
    pub fn is_new_piece(&self) -> bool {
        self.is_new.swap(false, Ordering::SeqCst)
    }

    fn is_reached(&self) -> bool {
        self.is_reached.load(Ordering::SeqCst)
    }

    /// Notes that the reader has taken bytes. The first of a frame came with the bytes that were read last: a buffer is
    /// filled only once it is used up.
    fn take(&self) {
        if self.is_before.load(Ordering::SeqCst) {
            self.is_before.store(false, Ordering::SeqCst);
            self.first
                .store(self.came.load(Ordering::SeqCst), Ordering::SeqCst);
        }
    }
}

/// A place for the age at which each frame was read that may be read and not written, if a recording is cut by time.
fn ages_of(alloc: Global, cut: Option<Cut>, window: usize) -> Result<Vec<AtomicU64>, AllocError> {
    let mut ages = Vec::new(alloc);
    if let Some(Cut::Seconds(_)) = cut {
        for _place in 0..window {
            ages.push(AtomicU64::new(0))?;
        }
    }
    Ok(ages)
}

/// A reader whose reads fail once so many frames were read as its course has, if it has one; it notes there when the
/// first byte of each frame came.
#[derive(Drop)]
pub struct Limited<'a, R> {
    reader: R,
    course: Option<&'a Course>,
    failed: u64,
}

/// The failure of a read beyond the limit.
const BEYOND: Failed = Failed {
    kind: io::ErrorKind::Interrupted,
    number: None,
};

impl<'a, R> Limited<'a, R> {
    /// A reader with its course, if it has one. No read has failed yet.
    pub fn new(reader: R, course: Option<&'a Course>) -> Limited<'a, R>
        ensures { result.reader ≡ reader }
    {
        Limited {
            reader,
            course,
            failed: 0,
        }
    }

    /// Borrows the reader.
    pub fn get_ref(&self) -> &R
        ensures { result.now ≡ self.now.reader }
    {
        &self.reader
    }

    fn is_closed(&self) -> bool {
        match self.course {
            Some(course) => course.is_reached(),
            None => false,
        }
    }

    /// Notes that bytes were taken, if any were.
    fn note(&self, are_some: bool) {
        if are_some {
            if let Some(course) = self.course {
                course.take();
            }
        }
    }

    /// Counts a failed read.
    fn count(&mut self)
        ensures reader { self.new.reader ≡ self.old.reader }
        ensures failed { self.new.failed ≡ risen self.old.failed }
    {
        self.failed = self.failed.saturating_add(1);
    }
}

impl<'a, R: Feed> Read for Limited<'a, R> {
    ghost remaining = { λ limited. R.remaining limited.reader };

    fn read(&mut self, buf: &mut [u8]) -> io::Result<usize> {
        if self.is_closed() {
            return Err(io::Error::from(io::ErrorKind::Interrupted));
        }
        let given = self.reader.read(buf)?;
        self.note(given > 0);
        Ok(given)
    }
}

impl<'a, R: Feed> Feed for Limited<'a, R> {
    ghost failed_reads = { λ limited. limited.failed };

    fn feed(&mut self, buf: &mut [u8]) -> Result<usize, Failed> {
        if self.is_closed() {
            self.count();
            return Err(BEYOND);
        }
        match self.reader.feed(buf) {
            Ok(given) => {
                self.note(given > 0);
                Ok(given)
            }
            Err(failure) => {
                self.count();
                Err(failure)
            }
        }
    }

    fn feed_past(
        &mut self,
        mark: u8,
        limit: u8,
        most: usize,
        bytes: &mut Vec<u8>,
    ) -> Result<Option<u8>, FeedFault> {
        if self.is_closed() {
            self.count();
            return Err(FeedFault::Io);
        }
        match self.reader.feed_past(mark, limit, most, bytes) {
            Ok(next) => {
                self.note(next.is_some());
                Ok(next)
            }
            Err(FeedFault::Io) => {
                self.count();
                Err(FeedFault::Io)
            }
            Err(FeedFault::NoMemory) => Err(FeedFault::NoMemory),
        }
    }

    fn failures(&self) -> u64 {
        self.failed
    }
}
