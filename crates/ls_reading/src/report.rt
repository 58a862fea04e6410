//! The lines of a check: a line for each finding, then the totals, as texts or as objects of JSON.
ghost use Rattle.std.specs.Prelude.{◌≡◌, ◌⊎◌, false, IfSome};
ghost use Rattle.ls_reading.specs.View.Statuses.{DoneOrFailed};

use ls_archive::{Checked, Finding};
use ls_console::{
    Console, DONE, FAILED, Lines, Quoted, Shown, finish_lines, no_memory, say_unwritten,
};
use ls_frame::{Counted, Outlet, write_bytes};
use ls_salvage::{Gap, Gaps};
use std::alloc::{AllocError, Global};
use std::fmt::Display;
use std::io::Write;

/// The form of the lines of a check.
#[derive(Clone, Copy)]
pub enum Form {
    /// Texts.
    Plain,
    /// Texts that begin with the recording's name, since the lines of others are written too.
    Named,
    /// Objects of JSON.
    Json,
}

/// The form of the lines of a check: JSON if that is asked for, else with names if there are several recordings.
pub fn form_of(json: bool, several: bool) -> Form {
    if json {
        Form::Json
    } else if several {
        Form::Named
    } else {
        Form::Plain
    }
}

/// Writes the lines of a check.
#[derive(Drop)]
pub struct Report<'l, L> {
    alloc: Global,
    /// The recording's name.
    file: &'l str,
    lines: &'l mut L,
    form: Form,
    /// The number of gaps reported so far.
    gaps: u64,
}

impl<'l, L: Outlet> Report<'l, L> {
    pub fn new(alloc: Global, file: &'l str, lines: &'l mut L, form: Form) -> Report<'l, L> {
        Report {
            alloc,
            file,
            lines,
            form,
            gaps: 0,
        }
    }

    /// Writes a line. A failure is seen at the end.
    fn write<D: Display + Drop>(&mut self, text: D) -> Result<(), AllocError> {
        let line = format!(in self.alloc; "{text}\n")?;
        let _refused = write_bytes(self.lines, line.as_bytes());
        Ok(())
    }

    /// Writes a line about a frame, after the recording's name if lines begin with that.
    fn write_of_frame<D: Display + Drop>(&mut self, text: D) -> Result<(), AllocError> {
        if matches!(self.form, Form::Named) {
            let file = Shown(self.file);
            self.write(format_args!("{file}: {text}"))
        } else {
            self.write(text)
        }
    }

    /// Writes the object of a damaged codestream of this number: the fault, and the bytes from an offset on.
    fn write_fault<D: Display + Drop>(
        &mut self,
        number: u64,
        fault: D,
        count: u64,
        place: u64,
    ) -> Result<(), AllocError> {
        let fault = format!(in self.alloc; "{fault}")?;
        let (file, fault) = (Quoted(self.file), Quoted(&fault));
        self.write(format_args!(
            "{{\"file\": {file}, \"frame\": {number}, \"fault\": {fault}, \"bytes\": {count}, \"offset\": {place}}}"
        ))
    }

    /// Writes the object of a codestream of this number that was found at another place.
    fn write_moved(
        &mut self,
        number: u64,
        count: u64,
        place: u64,
        stands: u64,
    ) -> Result<(), AllocError> {
        let file = Quoted(self.file);
        self.write(format_args!(
            "{{\"file\": {file}, \"frame\": {number}, \"fault\": \"moved\", \"bytes\": {count}, \"offset\": {place}, \"found\": {stands}}}"
        ))
    }

    /// Writes a line for each finding, with the place at which its codestream was found, if there is one, and then
    /// the totals. Returns the status.
    pub fn end_by<E: Outlet>(
        &mut self,
        checked: Checked,
        findings: &[Finding],
        places: &[Option<u64>],
        console: &mut Console<E>,
    ) -> u8
        ensures status { DoneOrFailed result }
        ensures good { result ≡ DONE → (checked.damaged ≡ 0) × (checked.more ≡ false) }
    {
        match self.write_all(findings, places) {
            Ok(moved) => self.end(checked, moved, console),
            Err(AllocError) => no_memory(console),
        }
    }

    /// Writes a line for each finding; the status if memory runs out.
    pub fn tell_all<E: Outlet>(
        &mut self,
        findings: &[Finding],
        console: &mut Console<E>,
    ) -> Option<u8>
        ensures { IfSome result (λ status. status ≡ FAILED) }
    {
        match self.write_all(findings, &[]) {
            Ok(_moved) => None,
            Err(AllocError) => Some(no_memory(console)),
        }
    }

    /// Writes a line for each finding, with its place or without, and returns the number of those that have one.
    fn write_all(
        &mut self,
        findings: &[Finding],
        places: &[Option<u64>],
    ) -> Result<u64, AllocError> {
        let mut moved = 0u64;
        for (number, finding) in findings.iter().enumerate() {
            let stands = match places.get(number) {
                Some(found) => elsewhere(*found, finding.place),
                None => None,
            };
            self.write_finding(finding, stands)?;
            if stands.is_some() {
                moved = moved.saturating_add(1);
            }
        }
        Ok(moved)
    }

    /// Writes the line of a finding, whose codestream was found at another place, or nowhere.
    fn write_finding(&mut self, finding: &Finding, stands: Option<u64>) -> Result<(), AllocError> {
        let Finding {
            number,
            place,
            count,
            damage,
            ..
        } = *finding;
        let is_json = matches!(self.form, Form::Json);
        match stands {
            Some(stands) if is_json => self.write_moved(number, count, place, stands),
            Some(stands) => {
                self.write_of_frame(format_args!("frame {number}: at {stands}, not {place}"))
            }
            None if is_json => self.write_fault(number, damage, count, place),
            None => {
                self.write_of_frame(format_args!(
                    "frame {number}: {damage}: {count} bytes at {place}"
                ))
            }
        }
    }

    /// Writes the totals of a check; `moved` of the damaged codestreams were found elsewhere. Returns the status.
    pub fn end<E: Outlet>(&mut self, checked: Checked, moved: u64, console: &mut Console<E>) -> u8
        ensures status { DoneOrFailed result }
        ensures good { result ≡ DONE → (checked.damaged ≡ 0) × (checked.more ≡ false) }
    {
        match self.write_end(checked, moved) {
            Ok(()) if checked.damaged == 0 && !checked.more => DONE,
            Ok(()) => FAILED,
            Err(AllocError) => no_memory(console),
        }
    }

    fn write_end(&mut self, checked: Checked, moved: u64) -> Result<(), AllocError> {
        let frames = checked.frames;
        let damaged = checked.damaged.saturating_sub(moved);
        if matches!(self.form, Form::Json) {
            let (file, more) = (Quoted(self.file), checked.more);
            return self.write(format_args!(
                "{{\"file\": {file}, \"frames\": {frames}, \"damaged\": {damaged}, \"moved\": {moved}, \"more_bytes\": {more}}}"
            ));
        }
        let file = Shown(self.file);
        if checked.more {
            self.write(format_args!("{file}: more bytes than the index has"))?;
        }
        if moved > 0 {
            return self.write(format_args!(
                "{file}: {frames} frames, {damaged} damaged, {moved} moved"
            ));
        }
        self.write(format_args!("{file}: {frames} frames, {damaged} damaged"))
    }
}

impl<'l, L: Outlet> Gaps for Report<'l, L> {
    ghost use Rattle.std.specs.Prelude.{None};

    ghost told = { λ _. None };

    fn tell(&mut self, gap: Gap) -> Result<(), AllocError> {
        let Gap {
            frame,
            place,
            count,
            fault,
        } = gap;
        let number = frame.saturating_add(self.gaps);
        self.gaps = self.gaps.saturating_add(1);
        if matches!(self.form, Form::Json) {
            return self.write_fault(number, fault, count, place);
        }
        self.write_of_frame(format_args!(
            "frame {number}: {fault}: {count} bytes at {place} passed over"
        ))
    }
}

/// The place at which a codestream was found, unless it is its own: one at its own place is damaged itself.
fn elsewhere(found: Option<u64>, own: u64) -> Option<u64> {
    match found {
        Some(place) if place != own => Some(place),
        _ => None,
    }
}

/// Flushes the lines of a check and returns the status. That a write has failed is said whatever was found.
pub fn finish_report<W: Write + Drop, E: Outlet>(
    status: u8,
    lines: Counted<Lines<W>>,
    console: &mut Console<E>,
) -> u8
    ensures { (result ≡ status) ⊎ (result ≡ FAILED) }
{
    let status = if Outlet::failures(&lines) > 0 {
        say_unwritten(lines.last_failure(), console)
    } else {
        status
    };
    let (_output, status) = finish_lines(status, lines, console);
    status
}
