//! The file of an index that is written together with its recording.
ghost use Rattle.std.specs.Prelude.{◌≡◌, ◌⊎◌, IfErr};

use ls_console::{Console, FAILED, MadeFile, Reader, Shown, USAGE, make_file, say_unmade};
use ls_files::{Keeper, Makes, Opens, Place};
use ls_frame::Outlet;
use std::rt::Files;

/// Makes the file for the index of a film's codestreams, unless the film has that place under another name. On failure
/// says why and returns the status.
pub fn make_index<'a, R, O, E>(
    rt: &R,
    opener: O,
    path: &'a str,
    film: &Reader<'_, O>,
    console: &mut Console<E>,
) -> Result<MadeFile<'a, O>, u8>
where
    R: AllocGlobal + Files,
    O: Makes + Copy + Drop,
    E: Outlet,
    ensures { IfErr result (λ status. (status ≡ FAILED) ⊎ (status ≡ USAGE)) }
{
    let place = Place::of(rt, path);
    let film = film.get_ref().get_ref();
    let identity = film.identity();
    let is_film = identity.is_some() && identity == place.identity();
    if is_film {
        return Err(say_twice(path, console));
    }
    let alloc = rt.alloc();
    match Keeper::claim(alloc, opener, &place, None, None, false) {
        Ok(keeper) => make_file(alloc, path, keeper, console),
        Err(unmade) => Err(say_unmade(path, unmade.fault, console)),
    }
}

/// Says that the file at a path is given twice, and returns the status `USAGE`.
pub fn say_twice<E: Outlet>(path: &str, console: &mut Console<E>) -> u8
    ensures { result ≡ USAGE }
{
    let shown = Shown(path);
    console.say(format_args!("{shown}: given twice"));
    USAGE
}
