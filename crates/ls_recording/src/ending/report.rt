//! The report of a recording: how each film went, and how busy the workers were, as a table or as JSON.
use super::ended::Ended;
use super::{json, table};
use crate::watching::Watch;
use ls_console::{Console, DONE, FAILED, MadeFile, Shown};
use ls_files::Makes;
use ls_frame::{Counted, Outlet, write_bytes};
use ls_opening::{Film, failed_of};
use std::alloc::{AllocError, Global};
use std::time::Clock;

/// The ending of the name of a report that is written as JSON.
const JSON: &str = ".json";

/// Writes a text to the file of a report, if there was memory for one, and syncs it to disk; or says that it can't.
/// Returns the status.
pub fn write_report<O, E>(
    report: MadeFile<'_, O>,
    text: Result<String, AllocError>,
    console: &mut Console<E>,
) -> u8
where
    O: Makes + Copy + Drop,
    E: Outlet,
{
    let MadeFile {
        path,
        target,
        mut keeper,
    } = report;
    let shown = Shown(path);
    let Ok(text) = text else {
        console.say(format_args!("{shown}: no memory"));
        keeper.give_back();
        return FAILED;
    };
    let mut output = Counted::new(target);
    let failure = match write_bytes(&mut output, text.as_bytes()) {
        Ok(()) => failed_of(keeper.sync()).err(),
        Err(_) => output.last_failure(),
    };
    let target = output.into_inner();
    let status = match failure {
        None => {
            keeper.replace();
            DONE
        }
        Some(_) => {
            let bytes = target.written();
            console.say(format_args!("{shown}: output failed after {bytes} bytes"));
            console.blame(path, failure);
            keeper.give_back();
            FAILED
        }
    };
    target.release();
    status
}

/// The report of a recording that has ended, by the name of its file: JSON, or a table.
pub fn report_of<R, O>(
    alloc: Global,
    path: &str,
    watch: &Watch<'_, R>,
    films: &[Film<'_, O>],
    workers: usize,
) -> Result<String, AllocError>
where
    R: Clock,
    O: Makes + Copy + Drop,
{
    if path.ends_with(JSON) {
        json_of(alloc, watch, films, workers)
    } else {
        table_of(alloc, watch, films, workers)
    }
}

/// The report as JSON.
fn json_of<R, O>(
    alloc: Global,
    watch: &Watch<'_, R>,
    films: &[Film<'_, O>],
    workers: usize,
) -> Result<String, AllocError>
where
    R: Clock,
    O: Makes + Copy + Drop,
{
    let mut report = json::begin(alloc)?;
    for (number, film) in films.iter().enumerate() {
        if let Some(seen) = watch.seen(number) {
            let names = (film.names.file, film.names.recording.as_str());
            json::add_film(alloc, &mut report, names, Ended::of(film, &seen), &seen)?;
        }
    }
    json::end(alloc, &mut report, watch.coding(), watch.lasted(), workers)?;
    Ok(report)
}

/// The table of a recording that has ended: a line for each film, by its name, and one of the workers.
fn table_of<R, O>(
    alloc: Global,
    watch: &Watch<'_, R>,
    films: &[Film<'_, O>],
    workers: usize,
) -> Result<String, AllocError>
where
    R: Clock,
    O: Makes + Copy + Drop,
{
    let mut lines = table::head(alloc)?;
    for (number, film) in films.iter().enumerate() {
        if let Some(seen) = watch.seen(number) {
            let ended = Ended::of(film, &seen);
            table::add_film(alloc, &mut lines, film.names.file, ended, &seen)?;
        }
    }
    table::add_workers(alloc, &mut lines, watch.coding(), watch.lasted(), workers)?;
    Ok(lines)
}
