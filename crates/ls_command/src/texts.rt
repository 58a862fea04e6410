//! The texts of `--help`, the text without words, and messages about misuse.

pub const BEGINNING: &str = "\
jlsrec records films without loss, several side by side, as JPEG-LS (ITU-T T.87), and plays them back.

  jlsrec record left.pgm right.pgm           records two films: left.pgm.jls, right.pgm.jls
  jlsrec play left.pgm.jls > again.pgm       plays a recording: again.pgm is left.pgm
  jlsrec code left.pgm > left.jls            codes a film to standard output
  jlsrec list left.pgm                       writes a line for each frame of a film
  jlsrec index left.pgm.jls                  writes a line for each codestream of a recording, with its sum

A film is binary Netpbm images (PGM or PPM, 1 to 16 bits a sample), one after the other.
All commands: jlsrec --help. The options of one: jlsrec record --help.
";

pub const COMMAND_WANTED: &str = "a command is wanted";

pub const LIST_HELP: &str = "\
Writes a line for each frame of FILE, a film, to standard output. (Of a recording `index` does that.)

The eleven columns of a line, one blank between:
  number   of the frame, from 0
  kind     gray or color
  width    in pixels
  height   in pixels
  maxval   the greatest value of a sample
  P        bits a sample (bpp of T.87)
  T1       the first threshold of T.87 for this maxval
  T2       the second
  T3       the third
  RESET    samples until a context's counters are halved
  LIMIT    the most bits of a sample's code word";

pub const JSON_HELP: &str = "\
Write an object of JSON for each line instead, on a line of its own: its members are the columns by these names, but
`frame` is the number, and `sha256` the sum";

pub const CODE_HELP: &str = "\
Writes a codestream of JPEG-LS (ITU-T T.87) for each frame of FILE to standard output.

The codestreams are lossless and have the default parameters of the frame's maxval.
They are joined with nothing between, and each is written before the next frame is read. If a frame can't
be read, the codestreams of exactly the frames before it are written.

CharLS and the tools on it read a codestream only if the maxval of its frame is 2^P - 1 with P bits a
sample: 3, 7, 15, .., 255, 1023, 4095, .., 65535; ffmpeg reads few others. Codestreams of other
maxvals conform to T.87 nevertheless. If one of these tools is to read them, first scale the film
to such a maxval, as with Netpbm's pamdepth.";

pub const PLAY_HELP: &str = "\
Writes the frames of the recording FILE to standard output, each as a binary Netpbm image, PGM or PPM; or the frames of
each FILE to a film of its own in a folder (--into).

FILE is codestreams of JPEG-LS (ITU-T T.87) joined with nothing between, as `code` writes them. So are the
images, and each is written before the next codestream is read. If a codestream can't be decoded, the images
of exactly the frames before it are written.

  jlsrec code film.pgm > film.jls
  jlsrec play film.jls | cmp - film.pgm

The film comes back byte for byte if its headers are as play writes them: P5 or P6, width and height,
and maxval, each on a line of its own, with no comment. Other programs take the images from a pipe, as
in `jlsrec play film.jls | ffmpeg -f image2pipe -i - film.mkv`.

A codestream of another program is read if it is lossless and has one component or three, each in a scan
of its own, without subsampling, restart intervals or mapping tables, and with its height and all
parameters before the first scan. For any other a message names what isn't supported.";

pub const FRAMES_HELP: &str = "\
The frames to play, from number A up to and including number B, counted from 0: A..B; or A alone, A.. to the end, ..B
from the first. The codestreams before A are passed over by their markers, and none after B is read";

pub const FRAMES_WANTED: &str =
    "--frames takes A, A.., ..B or A..B, of frame numbers from 0, A no greater than B";

pub const SALVAGE_HELP: &str = "\
Continue after a damaged codestream, at the next place after its first byte where one may begin, and report each gap
on standard error
  frame N: FAULT: B bytes at O passed over
where N counts the frames and the gaps before it. The status is 1 if there was a gap";

pub const INDEX_OF_SALVAGE_HELP: &str = "\
The recording's index, as `index` wrote it. With --frames, only lines and codestreams of these frames are read; each is
played only if it is exactly what its line says, with the sum if the line has one, and a part to the end ends with INDEX.
With --salvage INDEX must have sums: gaps are then reported by the recorded numbers, and at the end a line on standard
error reports each range of recorded frames that weren't played
  FILE: frame N is lost
or `frames N to M are lost`. FILE can't be a pipe";

pub const FILMS_INTO_HELP: &str = "\
The folder for the films, which are named after the last parts of their FILEs without .jls; a name without that ending
gets .pnm added. A film has the name NAME.part until it is whole and on the disk. An existing film isn't replaced, and
a film that can't be written whole is removed: either is a fault of its FILE, and the others go on";

pub const INTO_OR_SALVAGE: &str = "--into and --salvage don't go together";

pub const INTO_OR_INDEX: &str = "--into and --index don't go together";

pub const INTO_WANTED: &str = "several FILEs go only with --into";

pub const FRAMES_OR_SALVAGE: &str = "--frames and --salvage don't go together";

pub const SALVAGE_WANTED: &str = "--index goes only with --frames or --salvage";

pub const PLAYERS_HELP: &str = "\
The number of workers that decode, 1 to 16. With 2 or more, twice as many codestreams are read at once, and their
images are written in order once all of them are decoded";

pub const PLAYERS_WANTED: &str = "--workers goes with neither --frames nor --salvage";

pub const INDEX_HELP: &str = "\
Writes a line for each codestream of FILE, a recording, to standard output. It goes by markers and headers, and decodes
nothing.

The columns of a line, one blank between:
  number   of the codestream, from 0
  offset   of its first byte in FILE
  bytes    that it has
  kind     gray or color
  width    in pixels
  height   in pixels
  maxval   the greatest value of a sample
  P        bits a sample, as its header says
  T1       the first threshold of T.87 that it is coded with
  T2       the second
  T3       the third
  RESET    samples until a context's counters are halved
  sum      SHA-256 of its bytes

  $ jlsrec index film.pgm.jls > film.pgm.jls.index

Frame 137 alone, by its line: tail -c +$((OFFSET + 1)) FILE | head -c BYTES; or `jlsrec play --frames 137 FILE`.";

pub const INDEX_OF_CODE_HELP: &str = "\
The file for an index, as `index` writes it: the line of each codestream, once the codestream is written";

pub const INDEX_OF_RECORDING_HELP: &str = "\
Also write an index of each FILE.jls, FILE.jls.index, as `index` writes it: the line of each codestream, once the
codestream is written. If an index can't be created, nothing is recorded; if one fails later, its recording goes on";

pub const TIMES_HELP: &str = "\
Also write beside each FILE.jls, as FILE.jls.times, a line for each frame once it is written: its number, when its
first byte and its last came, and when it was written, in nanoseconds since 1970-01-01T00:00:00Z. If such a file
can't be created, nothing is recorded; if one fails later, its recording goes on";

pub const PIECES_HELP: &str = "\
Begin a new file each N frames, or each N seconds with s after the number: FILE.jls, then FILE.00001.jls,
FILE.00002.jls and so on, each with an index and times of its own if these are wanted. A finished one may be
moved or removed while the recording goes on. One after the other they are the recording";

pub const INDEX_BESIDE_HELP: &str = "\
Write the index of each FILE to FILE.index instead of standard output. It has the name FILE.index.part until it is whole
and on the disk. An existing FILE.index isn't replaced, which is a fault of its FILE; the others go on";

pub const BESIDE_WANTED: &str = "several FILEs go only with --beside";

pub const NO_SUMS_HELP: &str = "\
Omit the sum, which is faster; by such an index `check` doesn't find a changed bit that decodes as another sample";

pub const CHECK_HELP: &str = "\
Decodes each codestream of FILE, a recording, and writes a line for each damaged one to standard output:
  frame N: FAULT: B bytes at O passed over
or, by an index, where FAULT is also `truncated` or `changed`,
  frame N: FAULT: B bytes at O
  frame N: at P, not O
  FILE: more bytes than the index has
and at the end
  FILE: N frames, M damaged
By its sum in the index a codestream is also found elsewhere in FILE, unless that is a pipe: `at P, not O` reports it,
and such codestreams are counted separately, `, K moved`. The status is 0 if nothing but the last line was written, else
1. JPEG-LS has no checksums, so a bit that has changed may decode as other samples: only an index with sums shows that,
or `verify` with the film.

With several FILEs each line begins with `FILE: `, and the status is 0 only if it is for each of them. A FILE that can't
be read or is damaged keeps none of the others from being checked.";

pub const INDEX_FILE_HELP: &str = "\
The recording's index, as `index` wrote it: each codestream must be at its recorded place and, if the index has sums,
unchanged";

pub const CHECK_BESIDE_HELP: &str = "\
Check each FILE by the index beside it, FILE.index, as `record --index` and `index --beside` write it; a FILE without
one is at fault";

pub const FRAMES_OF_CHECK_HELP: &str = "\
With --index: the codestreams to check, as for `play`: A..B, A, A.. or ..B. Only their lines and bytes are read, whatever
comes after them in FILE, so that FILE may still be written. A.. ends with INDEX, or before a last line that isn't written
whole; if INDEX has just A lines, nothing is checked, and the status is 0";

pub const INDEX_WANTED: &str = "--frames goes only with --index";

pub const FRAMES_OR_STRICT: &str = "--frames and --strict don't go together";

pub const JSON_OF_CHECK_HELP: &str = "\
Write an object of JSON for each line instead, on a line of its own:
  {\"file\": FILE, \"frame\": N, \"fault\": FAULT, \"bytes\": B, \"offset\": O}
where FAULT is `moved` and `\"found\": P` follows if the codestream is at P, not O; and at the end of each FILE
  {\"file\": FILE, \"frames\": N, \"damaged\": M, \"moved\": K, \"more_bytes\": true or false}";

pub const JSON_OR_BESIDE: &str = "--json and --beside don't go together";

pub const INDEX_OR_BESIDE: &str = "--index and --beside don't go together";

pub const INDEX_OF_ONE: &str = "--index goes only with one FILE; --beside goes with several";

pub const CHECKERS_HELP: &str = "\
The number of workers that decode by an index, 1 to 16. With 2 or more, twice as many codestreams are read at once, and
their lines are written in order once all of them are checked";

pub const CHECKERS_WANTED: &str = "--workers goes only with --index or --beside";

pub const STRICT_HELP: &str = "\
If nothing else is wrong, also look whether each codestream of FILE is strict: whether the data of its scans are exactly
what encoding its frame gives. (Decoders accept a few more bits after these.) A line on standard error reports each that
isn't
  FILE: frame N: not strict: the scan of component C
where C counts the components from 0; the status is then 1. FILE is read twice, so it can't be a pipe";

pub const VERIFY_HELP: &str = "\
Compares the frames of FILE, a recording, with those of FILM, frame by frame. The status is 0 exactly if they are the
same, each with its size, its maxval and all its samples, whatever the form of the headers on either side. Else it is 1,
and a line on standard error reports the first frame that differs, is missing or is too many.

  $ jlsrec verify film.pgm film.pgm.jls && echo the same

Further pairs FILM FILE may follow. A line on standard output then reports each pair that is the same
  FILE: the same
and the status is 0 only if all are. A pair that isn't keeps none of the others from being compared.";

pub const FRAMES_OF_VERIFY_HELP: &str = "\
The frames to compare, as for `play`: A..B, A, A.. or ..B. Those before A are passed over, the recording's by their
markers, and none after B is read. A.. compares up to the end of both, where both may have just A frames";

pub const FRAMES_OF_ONE: &str = "--frames goes only with one FILE";

pub const VERIFIERS_WANTED: &str = "--workers and --frames don't go together";

pub const PAIRS_WANTED: &str = "each FILM goes with a FILE: the last FILM has none";

pub const VERIFIERS_HELP: &str = "\
The number of workers that decode FILE, 1 to 16. With 2 or more, twice as many codestreams are read at once";

pub const RECORD_HELP: &str = "\
Records each film FILE into a file FILE.jls beside it, with a codestream of JPEG-LS (ITU-T T.87) for each of
its frames. A FILE may be a named pipe that a camera writes to.

Each film has a lane of its own, which reads its frames and writes their codestreams in frame order once
they are coded; the workers code the frames of all films. A film that ends early or is malformed ends its
own recording, and no other. Once all have ended, a line reports each FILE that was recorded completely and
is on the disk, in the order of the films:
  FILE: N frames

All FILEs are opened before any FILE.jls is created. No earlier recording is lost: an existing FILE.jls is
first renamed to FILE.jls.1, or to the next free number, together with its index, its times and its pieces.
If another program is recording it, nothing is changed. A named pipe is opened by its own lane, so a camera
that hasn't started doesn't delay the others.

  $ jlsrec record left.pgm right.pgm
  left.pgm: 250 frames
  right.pgm: 250 frames
  $ jlsrec play left.pgm.jls | cmp - left.pgm";

pub const TOO_MANY_FILMS: &str = "jlsrec: at most 16 files\n";

pub const BAD_PRESET: &str = "jlsrec: bad preset\n";

pub const BAD_PIECES: &str = "jlsrec: bad pieces\n";

pub const WORKERS_HELP: &str = "The number of workers that code frames, 1 to 16";

pub const QUEUE_HELP: &str = "The number of frames that may wait for a worker, 1 to 256";

pub const WINDOW_HELP: &str = "The number of frames of a film that may be in progress, 1 to 64";

pub const PRESET_HELP: &str = "\
The coding parameters for all films; each 0 stands for the default for a frame's maxval";

pub const INTO_HELP: &str = "\
The folder for the recordings, which are named after the last parts of their FILEs, with .jls added
[default: beside each FILE]";

pub const REPLACE_HELP: &str = "\
Remove the FILE.jls that was renamed, its index and its times, and with --pieces its pieces, once the new recording
has its first frame on the disk";

pub const PROGRESS_HELP: &str = "\
Report on standard error how far each film is, twice a second, and immediately when one stops;
on a terminal this is always reported, in its place";

pub const REPORT_HELP: &str = "\
The file for a report, created before anything is recorded and written at the end: for each film its frames, bytes,
speed and longest delay, and how busy the workers were; as JSON if its name ends with .json";

pub const COUNT_HELP: &str = "\
The number of frames, 1 or more, after which a film is read no further, also if it goes on";

pub const SECONDS_HELP: &str = "\
The seconds, 1 or more, after which all films end as by a signal: each frame that was read whole is recorded";

pub const KEEP_OPEN_HELP: &str = "\
Keep each named pipe open when nothing writes to it, so that programs may come and go, each with whole frames;
its recording then ends by a signal, by --for or by --count";

pub const SYNC_HELP: &str = "\
The seconds, 0 to 86400, after which what is recorded is brought onto the disk again, where a loss of power can't take
it; a slow disk takes longer. With 0 that is done only once a film has ended";

pub const REASONS_HELP: &str = "\
Also report on standard error the system's reason for a fault, and what a file of another kind seems to be;
on a terminal this is always reported";

pub const FILMS_HELP: &str =
    "The films to read, 1 to 16: binary Netpbm images (PGM, PPM) one after the other";

pub const RECORDINGS_HELP: &str = "\
The recordings to read: lossless codestreams of JPEG-LS one after the other";

pub const RECORDING_OF_FILM_HELP: &str = "\
The recording to read: lossless codestreams of JPEG-LS one after the other; further films may follow, each with its
recording";

pub const REPLAY_HELP: &str = "\
Writes the replies of a bounded queue to the steps of FILE to standard output, a line a step.

The lines of FILE, in which S is a source (0 to 255) and ITEM a number (0 to 2^64 - 1):
  put S ITEM   source S puts ITEM
  close S      source S closes
  take         the job that was held longest is taken
There are one or more blanks between words. Blanks at either end of a line, and lines without words,
are skipped. Lines end with LF, which the last one may lack. FILE has at most 16,777,216 bytes.

The lines that are written:
  taken N        the item was taken in; it is number N of its source
  closed         it wasn't: its source was closed before
  spent          it wasn't: its source has no number left
  full           it wasn't: as many jobs are held as the capacity
  now N          the source is closed from now on; N of its items were taken in
  already N      the source was closed before
  job S N ITEM   the job that was held longest: item number N of source S
  empty          no job is held, and some source is open
  done           no job is held, and all sources are closed

Nothing is written if a line is no step or a step names a source that isn't there.

  $ printf 'put 0 7\\nput 1 8\\nclose 0\\ntake\\n' > steps.txt
  $ jlsrec replay --sources 2 --capacity 1 steps.txt
  taken 0
  full
  now 1
  job 0 0 7";

pub const SOURCES_HELP: &str = "How many sources the queue has, 1 to 16";

pub const CAPACITY_HELP: &str = "How many jobs it may hold, 1 to 256";

pub const STEPS_HELP: &str = "The steps file to read";

pub const FILM_HELP: &str = "\
The film to read: binary Netpbm images (PGM, PPM; 1 to 16 bits a sample) one after the other";
