//! Ends films after as many frames of each as were asked for, and has the times of their frames written and their
//! recordings cut into pieces.
use super::Watch;
use super::times::FilmTimes;
use ls_files::Makes;
use ls_opening::Course;
use ls_recorder::{Gate, Moment, Notice};
use std::sync::Wait;
use std::time::Clock;

/// A gate that notes on the films' courses, if they have any, which frames are read and written; has their times
/// written, if those are wanted; and passes everything on to a watch.
#[derive(Drop)]
pub struct Limiting<'w, 'r, 'c, 't, 'a, R, O: Makes> {
    pub watch: &'w Watch<'r, R>,
    pub courses: &'c [Course],
    pub times: &'t [FilmTimes<'a, O>],
}

impl<'w, 'r, 'c, 't, 'a, R, O> Limiting<'w, 'r, 'c, 't, 'a, R, O>
where
    R: Clock + Wait,
    O: Makes + Copy + Drop,
{
    /// Notes an event of the film of this number, which has this course.
    fn note(&self, course: &Course, film: usize, notice: Notice) {
        match notice {
            Notice::Reading(_) => course.begin(),
            Notice::Read { number, .. } => {
                course.note(number);
                if course.is_aged() {
                    course.note_age(number, self.watch.age());
                }
                if let Some(times) = self.times.get(film) {
                    times.note(number, course.times());
                }
            }
            Notice::Written { number, .. } => {
                course.wrote();
                if course.is_new_piece() {
                    self.watch.note_finished();
                }
                if let Some(times) = self.times.get(film) {
                    times.write(self.watch.clock, number);
                }
            }
            _ => {}
        }
    }
}

impl<'w, 'r, 'c, 't, 'a, R, O> Gate for Limiting<'w, 'r, 'c, 't, 'a, R, O>
where
    R: Clock + Wait + Sync,
    O: Makes + Copy + Drop + Send,
    O::File: Send,
{
    fn pass(&self, source: u8, number: u64, moment: Moment) {
        self.watch.pass(source, number, moment);
    }

    fn notice(&self, source: u8, notice: Notice) {
        let film = usize::from(source);
        if let Some(course) = self.courses.get(film) {
            self.note(course, film, notice);
        }
        self.watch.notice(source, notice);
    }
}
