//! The commands `list` and `code`, the latter with an index of its codestreams or without.
ghost use Rattle.std.specs.Prelude.{◌≡◌, ◌⊎◌, true, None, IfOk, IfErr};
ghost use Rattle.ls_frame.specs.Netpbm.{IsImageOf};
ghost use Rattle.ls_frame.specs.View.Devices.{count_after, wrapped};
ghost use Rattle.ls_film.specs.Coding.{default_file};
ghost use Rattle.ls_film.specs.Listing.{lines as film_lines};
ghost use Rattle.ls_film.specs.View.Engine.{Completes};
ghost use Rattle.ls_film.specs.View.Steps.{failed_by};
ghost use Rattle.ls_film.specs.View.Stopping.{Stops, blames_reader, blames_writer};
ghost use Rattle.ls_archive.specs.View.Coded.{CodesWithIndex};
ghost use Rattle.ls_files.specs.View.Files.{held_by_target};
ghost use Rattle.ls_console.specs.View.Readers.{unread};
ghost use Rattle.ls_reading.specs.View.Commands.{WritesTextOf};
ghost use Rattle.ls_reading.specs.View.Indexes.{HasCoded};
ghost use Rattle.ls_reading.specs.View.Statuses.{DoneOrFailed, DoneFailedOrUsage};

use crate::asked::Asked;
use crate::cause::{Caused, conclude};
use crate::indexing::{make_index, say_twice};
use core::mem::replace_with;
use ls_archive::{CodedFilm, IndexFault, code_film_with_index};
use ls_console::{
    Column, Console, DONE, EndedIndex, FAILED, Host, Lines, MadeFile, Objects, Program, Reader,
    USAGE, finish, finish_lines, line_buffer, no_memory, open_film, say_index_end,
};
use ls_files::{Keeper, Makes, Opens, Target};
use ls_film::{FilmFault, code_film_by, list_film};
use ls_frame::{Counted, Failed, Feed, Outlet};
use std::alloc::Global;
use std::io::Write;
use std::thread::Threads;

/// The columns of a film's lines.
const COLUMNS: [Column; 11] = [
    Column::Number("frame"),
    Column::Word("kind"),
    Column::Number("width"),
    Column::Number("height"),
    Column::Number("maxval"),
    Column::Number("P"),
    Column::Number("T1"),
    Column::Number("T2"),
    Column::Number("T3"),
    Column::Number("RESET"),
    Column::Number("LIMIT"),
];

/// Lists a film, through a buffer.
pub fn list<R, O, W, E>(program: Program<'_, R, O, W, E>, file: &str) -> u8
where
    R: AllocGlobal,
    O: Opens + Copy + Drop,
    W: Write,
    E: Outlet,
    ensures status { DoneOrFailed result }
    ensures lists { result ≡ DONE → WritesTextOf O.holds program.entry.opener file.now
        (W.contents (wrapped program.entry.output.now)) (W.contents (wrapped program.exit.1.1.0.now)) IsImageOf film_lines }
{
    let Program {
        rt,
        opener,
        output,
        console,
    } = program;
    let Ok(buffer) = line_buffer(rt.alloc()) else {
        return no_memory(console);
    };
    let asked = Asked {
        rt,
        opener,
        file,
        buffer,
        console,
    };
    replace_with(output, asked, list_lines)
}

/// Lists a film through a buffer, and returns the output with the status.
fn list_lines<R, O, W, E>(output: Counted<W>, asked: Asked<'_, R, O, E>) -> (Counted<W>, u8)
where
    R: AllocGlobal,
    O: Opens + Copy + Drop,
    W: Write,
    E: Outlet,
    ensures status { DoneOrFailed result.1 }
    ensures lists { result.1 ≡ DONE → WritesTextOf O.holds asked.entry.opener asked.entry.file.now
        (W.contents (wrapped output)) (W.contents (wrapped result.0)) IsImageOf film_lines }
{
    let Asked {
        rt,
        opener,
        file,
        buffer,
        console,
    } = asked;
    let mut lines = Counted::new(Lines::new(output, buffer));
    let lined = Program {
        rt,
        opener,
        output: &mut lines,
        console: &mut *console,
    };
    let status = list_through(lined, file);
    finish_lines(status, lines, console)
}

/// Lists a film likewise, with an object of JSON for each line. What it writes is shown by tests; with the status `DONE`
/// the film was read to its end.
pub fn list_json<R, O, W, E>(program: Program<'_, R, O, W, E>, file: &str) -> u8
where
    R: AllocGlobal,
    O: Opens + Copy + Drop,
    W: Write,
    E: Outlet,
    ensures status { DoneOrFailed result }
    ensures film { result ≡ DONE → WritesTextOf O.holds program.entry.opener file.now None None IsImageOf film_lines }
{
    let Program {
        rt,
        opener,
        output,
        console,
    } = program;
    let Ok(buffer) = line_buffer(rt.alloc()) else {
        return no_memory(console);
    };
    list_objects(rt, opener, file, Lines::new(&mut *output, buffer), console)
}

/// Writes the objects of a film's lines to a writer, and flushes it.
fn list_objects<R, O, L, E>(rt: &R, opener: O, file: &str, lines: L, console: &mut Console<E>) -> u8
where
    R: AllocGlobal,
    O: Opens + Copy + Drop,
    L: Write + Drop,
    E: Outlet,
    ensures status { DoneOrFailed result }
    ensures film { result ≡ DONE → WritesTextOf O.holds opener file.now None None IsImageOf film_lines }
{
    let mut objects = Counted::new(Objects::new(lines, &COLUMNS));
    let listed = Program {
        rt,
        opener,
        output: &mut objects,
        console: &mut *console,
    };
    let status = list_through(listed, file);
    finish(status, &mut objects, console)
}

/// Lists a film, over any output, which isn't flushed.
fn list_through<R, O, L, E>(program: Program<'_, R, O, L, E>, file: &str) -> u8
where
    R: AllocGlobal,
    O: Opens + Copy + Drop,
    L: Write,
    E: Outlet,
    ensures status { DoneOrFailed result }
    ensures lists { result ≡ DONE → WritesTextOf O.holds program.entry.opener file.now
        (L.contents (wrapped program.entry.output.now)) (L.contents (wrapped program.exit.1.1.0.now)) IsImageOf film_lines }
{
    let Program {
        rt,
        opener,
        output,
        console,
    } = program;
    let mut film = match open_film(rt.alloc(), opener, file, console) {
        Ok(film) => film,
        Err(status) => return status,
    };
    let result = list_to(rt.alloc(), &mut film, output);
    conclude(file, result, &film, output.last_failure(), console)
}

/// Lists a film, over any reader and writer. (Each engine is called by such a function: if reader and writer are
/// known, it takes a quarter of a minute to prove what calls an engine.)
fn list_to<R: Feed, W: Outlet>(alloc: Global, film: &mut R, lines: &mut W) -> Result<u64, FilmFault>
    ensures completes { IfOk result (Completes IsImageOf film_lines
        (R.remaining film.old) (R.remaining film.new) (W.contents lines.old) (W.contents lines.new)) }
    ensures stops { IfErr result (Stops film_lines
        (R.remaining film.old) (R.remaining film.new) (W.contents lines.old) (W.contents lines.new)) }
    ensures reads { R.failed_reads film.new ≡ count_after (failed_by blames_reader result) (R.failed_reads film.old) }
    ensures writes { W.failed_writes lines.new ≡ count_after (failed_by blames_writer result) (W.failed_writes lines.old) }
{
    list_film(alloc, film, lines)
}

/// Codes a film, the scans of a colour frame side by side.
pub fn code<R, O, W, E>(program: Program<'_, R, O, W, E>, file: &str) -> u8
where
    R: AllocGlobal + Threads,
    O: Opens + Copy + Drop,
    W: Write,
    E: Outlet,
    ensures status { DoneOrFailed result }
    ensures codes { result ≡ DONE → WritesTextOf O.holds program.entry.opener file.now
        (W.contents (wrapped program.entry.output.now)) (W.contents (wrapped program.exit.1.1.0.now)) IsImageOf default_file }
{
    let Program {
        rt,
        opener,
        output,
        console,
    } = program;
    let mut film = match open_film(rt.alloc(), opener, file, console) {
        Ok(film) => film,
        Err(status) => return status,
    };
    let result = code_to(rt, &mut film, output);
    conclude(file, result, &film, output.last_failure(), console)
}

/// Codes a film, over any reader and writer.
fn code_to<Rt: AllocGlobal + Threads, R: Feed, W: Outlet>(
    rt: &Rt,
    film: &mut R,
    output: &mut W,
) -> Result<u64, FilmFault>
    ensures completes { IfOk result (Completes IsImageOf default_file
        (R.remaining film.old) (R.remaining film.new) (W.contents output.old) (W.contents output.new)) }
    ensures stops { IfErr result (Stops default_file
        (R.remaining film.old) (R.remaining film.new) (W.contents output.old) (W.contents output.new)) }
    ensures reads { R.failed_reads film.new ≡ count_after (failed_by blames_reader result) (R.failed_reads film.old) }
    ensures writes { W.failed_writes output.new ≡ count_after (failed_by blames_writer result) (W.failed_writes output.old) }
{
    code_film_by(rt, rt.alloc(), film, output)
}

/// Codes a film, and writes the index of its codestreams to a file, which must be another one.
pub fn code_with_index<R, O, W, E>(program: Program<'_, R, O, W, E>, file: &str, index: &str) -> u8
where
    R: Host + Threads,
    O: Makes + Copy + Drop,
    W: Write,
    E: Outlet,
    ensures status { DoneFailedOrUsage result }
    ensures twice { file.now ≡ index.now → result ≡ USAGE }
    ensures codes { result ≡ DONE → WritesTextOf O.holds program.entry.opener file.now
        (W.contents (wrapped program.entry.output.now)) (W.contents (wrapped program.exit.1.1.0.now)) IsImageOf default_file }
{
    let Program {
        rt,
        opener,
        output,
        console,
    } = program;
    if file == index {
        return say_twice(index, console);
    }
    let film = match open_film(rt.alloc(), opener, file, console) {
        Ok(film) => film,
        Err(status) => return status,
    };
    let made = match make_index(rt, opener, index, &film, console) {
        Ok(made) => made,
        Err(status) => return status,
    };
    let coded = code_made(rt, file, film, made, output, console);
    coded.index.release();
    coded.status
}

/// A film that was coded while its index was written: the status, and the file of the index, which isn't released yet.
#[derive(Drop)]
struct Coded<'a, O: Opens> {
    status: u8,
    index: Target<'a, O>,
}

/// Codes a film while its index is written to a file that was made.
fn code_made<'a, Rt, O, W, E>(
    rt: &Rt,
    file: &str,
    film: Reader<'_, O>,
    made: MadeFile<'a, O>,
    output: &mut Counted<W>,
    console: &mut Console<E>,
) -> Coded<'a, O>
where
    Rt: AllocGlobal + Threads,
    O: Makes + Copy + Drop,
    W: Write,
    E: Outlet,
    ensures status { DoneOrFailed result.status }
    ensures codes { result.status ≡ DONE → HasCoded (unread O.File.remaining film.entry) (W.contents (wrapped output.old)) (W.contents (wrapped output.new))
        (held_by_target O.File.contents made.entry.target) (held_by_target O.File.contents result.index) }
{
    let MadeFile {
        path,
        target,
        mut keeper,
    } = made;
    let coding = Coding {
        rt,
        film,
        index: Counted::new(target),
    };
    let Followed {
        result,
        film,
        index,
        broken,
    } = replace_with(output, coding, code_followed);
    let status = conclude(file, result, &film, output.last_failure(), console);
    give_back_unless(result.is_ok(), &mut keeper);
    let ended = end_index(path, index, broken, &keeper, console);
    Coded::of(status, ended)
}

/// Gives back the place of an index, unless its film was coded.
fn give_back_unless<O: Makes + Copy + Drop>(is_coded: bool, keeper: &mut Keeper<O>) {
    if !is_coded {
        keeper.give_back();
    }
}

impl<'a, O: Opens> Coded<'a, O> {
    /// A film that was coded with this status; `FAILED` if its index isn't whole.
    fn of(status: u8, ended: EndedIndex<'a, O>) -> Coded<'a, O>
        ensures status { (result.status ≡ status) ⊎ (result.status ≡ FAILED) }
        ensures whole { result.status ≡ DONE → ended.entry.is_whole ≡ true }
        ensures index { result.index ≡ ended.entry.target }
    {
        Coded {
            status: if ended.is_whole { status } else { FAILED },
            index: ended.target,
        }
    }
}

/// A film to be coded, and what its index is written to.
#[derive(Drop)]
struct Coding<'rt, Rt, R, I> {
    rt: &'rt Rt,
    film: R,
    index: I,
}

/// A film that was coded: the result, what is left of it, and what its index was written to, with the fault that broke
/// the index off, if there was one.
#[derive(Drop)]
struct Followed<R, I> {
    result: Result<u64, FilmFault>,
    film: R,
    index: I,
    broken: Option<IndexFault>,
}

/// Codes a film, over any reader and writer, while its index is written. Returns the writer with what was done.
fn code_followed<Rt: AllocGlobal + Threads, R: Feed, W: Outlet, I: Outlet>(
    output: W,
    coding: Coding<'_, Rt, R, I>,
) -> (W, Followed<R, I>)
    ensures completes { IfOk result.1.result (CodesWithIndex (R.remaining coding.entry.film) (R.remaining result.1.film)
        (W.contents output) (W.contents result.0) (I.contents coding.entry.index) (I.contents result.1.index) result.1.broken) }
    ensures stops { IfErr result.1.result (Stops default_file
        (R.remaining coding.entry.film) (R.remaining result.1.film) (W.contents output) (W.contents result.0)) }
    ensures reads { R.failed_reads result.1.film ≡ count_after (failed_by blames_reader result.1.result) (R.failed_reads coding.entry.film) }
{
    let Coding {
        rt,
        mut film,
        index,
    } = coding;
    let CodedFilm {
        result,
        recording,
        index,
        broken,
    } = code_film_with_index(rt, rt.alloc(), &mut film, output, index);
    let followed = Followed {
        result,
        film,
        index,
        broken,
    };
    (recording, followed)
}

/// Syncs the index of a film that was coded, and says why it isn't whole, if it isn't.
fn end_index<'a, O, E>(
    path: &str,
    index: Counted<Target<'a, O>>,
    broken: Option<IndexFault>,
    keeper: &Keeper<O>,
    console: &mut Console<E>,
) -> EndedIndex<'a, O>
where
    O: Makes + Copy + Drop,
    E: Outlet,
    ensures whole { result.is_whole ≡ true → broken ≡ None }
    ensures target { result.target ≡ wrapped index.entry }
{
    let synced = match keeper.sync() {
        Ok(()) => Ok(()),
        Err(fault) => Err(Failed::from(fault)),
    };
    let broken = broken.map(|fault| (fault, fault.cause()));
    say_index_end(path, index, synced, broken, console)
}
