//! Writes a film's recording, which may be cut into pieces, each a file of its own with an index of its own.
ghost use Rattle.std.specs.Prelude.{◌≡◌, []};
ghost use Rattle.std.specs.Io.KnownBytes.{Keeps};
ghost use Rattle.ls_frame.specs.View.Devices.{wrapped};
ghost use Rattle.ls_archive.specs.View.Following.{recording_of};
ghost use Rattle.ls_opening.specs.View.Devices.{finished_of, held_in_pieces, last_of, kept_of};

use crate::chain::Chain;
use crate::limited::Course;
use crate::names::Names;
use ls_archive::{Follower, IndexFault, Indexing};
use ls_files::{Keeper, Makes, Opens, Piece, Target, Unmade};
use ls_frame::Counted;
use std::alloc::{AllocError, Global};
use std::io::Write;
use std::{io, mem};

/// The writer of a piece, and of its index if it has one.
pub type PieceWriter<'a, O> = Indexing<Counted<Target<'a, O>>, Counted<Target<'a, O>>>;

/// What follows an index while its recording is written.
pub type IndexFollower<'a, O> = Follower<Counted<Target<'a, O>>>;

/// Where a film's recording is cut into pieces, and how they are handed on.
pub struct Cutting<'a, O: Makes> {
    pub course: &'a Course,
    pub chain: &'a Chain<O>,
}

impl<'a, O: Makes> Clone for Cutting<'a, O> {
    fn clone(&self) -> Result<Cutting<'a, O>, AllocError> {
        Ok(*self)
    }
}

impl<'a, O: Makes> Copy for Cutting<'a, O> {}

/// How the next piece of a recording is made.
#[derive(Drop)]
pub struct Succession<'a, O: Makes> {
    pub alloc: Global,
    pub opener: O,
    pub names: &'a Names<'a>,
    pub cutting: Cutting<'a, O>,
    /// Which file of the next piece couldn't be made, and why, and the number of the piece, if that is so.
    pub unmade: Option<(u32, Unmade)>,
}

/// The files of the next piece of a recording, and how they are written and handed on.
#[derive(Drop)]
struct NextPiece<'a, O: Makes> {
    keeper: Keeper<O>,
    recording: O::File,
    index: Option<IndexFollower<'a, O>>,
    times: Option<O::File>,
    opener: O,
    path: &'a str,
    cutting: Cutting<'a, O>,
}

/// The index of a piece that stopped early: the number of the piece, what followed it, and why it stopped.
#[derive(Drop)]
pub struct BrokenIndex<'a, O: Opens> {
    pub piece: u32,
    pub follower: IndexFollower<'a, O>,
    pub fault: IndexFault,
}

/// The parts of a recording whose film has ended.
#[derive(Drop)]
pub struct Parts<'a, O: Makes> {
    /// The pieces that were finished, and the last one.
    pub finished: O::Finished,
    pub last: Target<'a, O>,
    pub beside: BesideParts<'a, O>,
    /// Which file of a piece after the last couldn't be made, and why, and the number of that piece, if that is so.
    pub unmade: Option<(u32, Unmade)>,
}

/// What there is of the indexes of a recording whose film has ended.
#[derive(Drop)]
pub struct BesideParts<'a, O: Opens> {
    /// The index of the last piece, if it has one, and why it stopped early, if it did.
    pub follower: Option<IndexFollower<'a, O>>,
    pub fault: Option<IndexFault>,
    /// The first index of the others that stopped early.
    pub broken: Option<BrokenIndex<'a, O>>,
    /// The number of the last piece.
    pub piece: u32,
}

/// A recording, which is written to one file, or to pieces, one after the other. The next one is begun, if it is due,
/// when bytes of another frame come.
#[derive(Drop)]
pub struct Pieces<'a, O: Makes> {
    piece: PieceWriter<'a, O>,
    finished: O::Finished,
    /// The first index of a finished piece that stopped early.
    broken: Option<BrokenIndex<'a, O>>,
    /// How the next piece is made, if there is to be more than one.
    succession: Option<Succession<'a, O>>,
}

impl<'a, O: Makes + Copy + Drop> Pieces<'a, O> {
    /// The writer of a recording whose first or only piece is written by `piece`.
    pub fn new(
        alloc: Global,
        opener: O,
        piece: PieceWriter<'a, O>,
        succession: Option<Succession<'a, O>>,
    ) -> Pieces<'a, O>
        ensures last { last_of result ≡ wrapped (recording_of piece.entry) }
        ensures none { kept_of O.kept result ≡ [] }
    {
        Pieces {
            piece,
            finished: opener.none_finished(alloc),
            broken: None,
            succession,
        }
    }

    /// Returns its parts, once the film has ended.
    pub fn into_parts(self) -> Parts<'a, O>
        ensures finished { result.finished ≡ finished_of self.entry }
        ensures last { result.last ≡ last_of self.entry }
    {
        let Pieces {
            piece,
            finished,
            broken,
            succession,
        } = self;
        let (last, follower, fault) = piece.into_parts();
        let (piece, unmade) = match &succession {
            Some(succession) => (succession.cutting.chain.begun(), succession.unmade),
            None => (0, None),
        };
        Parts {
            finished,
            last: last.into_inner(),
            beside: BesideParts {
                follower,
                fault,
                broken,
                piece,
            },
            unmade,
        }
    }

    /// Begins the next piece, if it is due and these are bytes for it.
    fn begin_if_due(&mut self, buf: &[u8]) -> io::Result<()>
        ensures { Keeps (held_in_pieces O.kept O.File.contents self.old) (held_in_pieces O.kept O.File.contents self.new) }
    {
        match self.make_if_due(buf)? {
            Some(next) => self.begin(next),
            None => Ok(()),
        }
    }

    /// Makes the files of the next piece, if it is due and these are bytes for it.
    fn make_if_due(&mut self, buf: &[u8]) -> io::Result<Option<NextPiece<'a, O>>>
        ensures piece { self.new.piece ≡ self.old.piece }
        ensures finished { self.new.finished ≡ self.old.finished }
    {
        match &mut self.succession {
            Some(succession) if !buf.is_empty() && succession.cutting.course.is_due() => {
                let next = succession.make()?;
                Ok(Some(next))
            }
            _ => Ok(None),
        }
    }

    /// Begins this piece. If memory runs out, it goes on with the one before.
    fn begin(&mut self, next: NextPiece<'a, O>) -> io::Result<()>
        ensures { Keeps (held_in_pieces O.kept O.File.contents self.old) (held_in_pieces O.kept O.File.contents self.new) }
    {
        let NextPiece {
            mut keeper,
            recording,
            index,
            times,
            opener,
            path,
            cutting,
        } = next;
        let piece = cutting.chain.begun();
        match self.go_on(opener, path, piece, recording, index) {
            Ok(()) => {
                cutting.course.begin_piece();
                cutting.chain.hand_on(keeper, times)
            }
            Err(refused) => {
                keeper.give_back();
                Err(io::Error::from(refused))
            }
        }
    }

    /// Closes the files of the piece of this number, which is finished, and goes on with those of the next. If memory
    /// runs out, it goes on with the piece.
    fn go_on(
        &mut self,
        opener: O,
        path: &'a str,
        number: u32,
        next: O::File,
        index: Option<IndexFollower<'a, O>>,
    ) -> Result<(), AllocError>
        ensures { Keeps (held_in_pieces O.kept O.File.contents self.old) (held_in_pieces O.kept O.File.contents self.new) }
    {
        let none = Indexing::new(Counted::new(Target::pipe(opener, path)), None);
        let (recording, follower, fault) = mem::replace(&mut self.piece, none).into_parts();
        let mut target = recording.into_inner();
        let outcome = target.succeed(&mut self.finished, next);
        let own = self.unbroken(number, follower, fault);
        let index = if outcome.is_ok() { index } else { own };
        self.piece = Indexing::new(Counted::new(target), index);
        outcome
    }

    /// The follower of an index, unless it stopped early: then it is kept, if it is the first.
    fn unbroken(
        &mut self,
        piece: u32,
        follower: Option<IndexFollower<'a, O>>,
        fault: Option<IndexFault>,
    ) -> Option<IndexFollower<'a, O>>
        ensures piece { self.new.piece ≡ self.old.piece }
        ensures finished { self.new.finished ≡ self.old.finished }
    {
        match (follower, fault) {
            (Some(follower), Some(fault)) => {
                if self.broken.is_none() {
                    self.broken = Some(BrokenIndex {
                        piece,
                        follower,
                        fault,
                    });
                }
                None
            }
            (follower, _) => follower,
        }
    }
}

impl<'a, O: Makes + Copy + Drop> Succession<'a, O> {
    /// Makes the files of the next piece. If that fails, it is noted why.
    fn make(&mut self) -> io::Result<NextPiece<'a, O>> {
        let chain = self.cutting.chain;
        chain.make_room();
        let number = chain.begun().saturating_add(1);
        let names = self.names;
        match Keeper::make_piece(
            self.alloc,
            self.opener,
            names.recording.as_str(),
            number,
            names.is_indexed,
            names.is_timed,
        ) {
            Ok((keeper, made)) => Ok(self.next_piece(keeper, made)),
            Err(unmade) => {
                self.unmade = Some((number, unmade));
                Err(unmade.fault)
            }
        }
    }

    /// The next piece, whose files are made.
    fn next_piece(&self, keeper: Keeper<O>, made: Piece<O::File>) -> NextPiece<'a, O> {
        let Piece {
            recording,
            index,
            times,
        } = made;
        let names = self.names;
        NextPiece {
            keeper,
            recording,
            index: follower_of(self.alloc, self.opener, names, index),
            times,
            opener: self.opener,
            path: names.recording.as_str(),
            cutting: self.cutting,
        }
    }
}

/// What follows the index of a piece, if it has one.
fn follower_of<'a, O: Makes + Drop>(
    alloc: Global,
    opener: O,
    names: &'a Names<'a>,
    index: Option<O::File>,
) -> Option<IndexFollower<'a, O>> {
    let target = Target::opened(opener, names.index.as_str(), index?);
    Some(Follower::new(alloc, Counted::new(target)))
}

impl<'a, O: Makes + Copy + Drop> Write for Pieces<'a, O> {
    ghost contents = { λ pieces. held_in_pieces O.kept O.File.contents pieces };

    fn write(&mut self, buf: &[u8]) -> io::Result<usize> {
        self.begin_if_due(buf)?;
        self.piece.write(buf)
    }

    fn write_all(&mut self, buf: &[u8]) -> io::Result<()> {
        self.begin_if_due(buf)?;
        self.piece.write_all(buf)
    }

    fn flush(&mut self) -> io::Result<()> {
        self.piece.flush()
    }
}
