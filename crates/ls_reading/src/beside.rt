//! The command `index --beside`: writes the index of each recording to a file beside it.
ghost use Rattle.std.specs.Prelude.{◌≡◌, All};
ghost use Rattle.ls_reading.specs.View.Each.{IsIndexed};
ghost use Rattle.ls_reading.specs.View.Statuses.{DoneOrFailed};

use crate::archive::index_through;
use crate::draft::Draft;
use crate::each::{index_name, worse};
use ls_console::{Console, DONE, Host, MadeFile, Program, no_memory};
use ls_files::Makes;
use ls_frame::{Counted, Outlet};
use std::io::Write;

/// Writes the index of each of these recordings, with sums or without, to a new file beside it. If that can't be done
/// for one, says so and goes on with the others.
pub fn index_beside<R, O, W, E>(program: Program<'_, R, O, W, E>, files: &[&str], sums: bool) -> u8
where
    R: Host,
    O: Makes + Copy + Drop,
    W: Write,
    E: Outlet,
    ensures status { DoneOrFailed result }
    ensures each { result ≡ DONE → All (λ file. IsIndexed O.holds O.File.contents program.entry.opener sums file.now) files.now }
{
    let Program {
        rt,
        opener,
        console,
        ..
    } = program;
    let mut status = DONE;
    for file in files {
        let own = index_one(rt, opener, file, sums, console);
        status = worse(status, own);
    }
    status
}

/// Writes the index of a recording to a new file beside it.
fn index_one<R, O, E>(rt: &R, opener: O, file: &str, sums: bool, console: &mut Console<E>) -> u8
where
    R: Host,
    O: Makes + Copy + Drop,
    E: Outlet,
    ensures status { DoneOrFailed result }
    ensures written { result ≡ DONE → IsIndexed O.holds O.File.contents opener sums file.now }
{
    let Ok(path) = index_name(rt.alloc(), file) else {
        return no_memory(console);
    };
    let Ok(draft) = Draft::new(rt.alloc(), path) else {
        return no_memory(console);
    };
    let made = match draft.make(rt, opener, console) {
        Ok(made) => made,
        Err(status) => return status,
    };
    let MadeFile { target, keeper, .. } = made;
    let mut output = Counted::new(target);
    let program = Program {
        rt,
        opener,
        output: &mut output,
        console: &mut *console,
    };
    let status = index_through(program, file, sums);
    draft.end(status, output.get_ref(), opener, &keeper, console)
}
