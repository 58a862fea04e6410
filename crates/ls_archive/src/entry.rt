//! A codestream taken off a reader, and what its headers say.
ghost use Rattle.std.specs.Prelude.{◌≡◌, ◌≤◌, ◌++◌, ℕ, List, [], length, Err, IfOk, IfErr, IfSome, IfNone};
ghost use Rattle.ls_frame.specs.Picture.{Picture};
ghost use Rattle.ls_frame.specs.View.Devices.{count_after};
ghost use Rattle.ls_frame.specs.View.Known.{WasAtEnd};
ghost use Rattle.ls_stream.specs.Grammar.{Spells, most_bytes};
ghost use Rattle.ls_stream.specs.View.Outlines.{outline_of};
ghost use Rattle.ls_film.specs.View.Steps.{failed_by};
ghost use Rattle.ls_archive.specs.Index.{Entry, columns};
ghost use Rattle.ls_archive.specs.View.Entries.{IsEntry, GaveEntry, HasHeaders};
ghost use Rattle.ls_archive.specs.View.Indexing.{StopsNext, blames_reader};

use crate::faults::IndexFault;
use ls_film::codestreams::{Unread, take_codestream};
use ls_frame::{Feed, Kind, Presets};
use ls_stream::laws::outlines_follow_the_grammar;
use ls_stream::{Opening, StreamFault};
use std::alloc::Global;
use std::marker::Model;
use std::mem::replace;

/// A codestream, and what its headers say.
#[derive(Drop)]
pub struct Indexed {
    /// The codestream; nothing follows it if the reader's bytes are known.
    bytes: Vec<u8>,
    headers: Headers,
}

impl Model for Indexed {
    ghost use Rattle.std.specs.Prelude.{◌≤◌, length};
    ghost use Rattle.ls_stream.specs.Grammar.{most_bytes};
    ghost use Rattle.ls_archive.specs.Index.{Entry};
    ghost use Rattle.ls_archive.specs.View.Entries.{entry_of};

    ghost Value = { Entry };

    ghost view = { λ i. entry_of i.bytes.items i.headers };

    ghost invariant = { λ i. (i.headers.used ≤ length i.bytes.items) × (i.headers.used ≤ most_bytes) };
}

/// What the headers of a codestream say.
#[derive(Clone, Copy)]
pub struct Headers {
    /// Its size, in bytes.
    used: usize,
    /// Bits per sample (P).
    precision: u8,
    kind: Kind,
    width: u16,
    height: u16,
    presets: Presets,
}

impl Indexed {
    /// Takes the next codestream off a reader, and reads its headers; `None` exactly at the end of input.
    ///
    /// Fails with `Stream` if it isn't complete by its markers and headers, with `Io` if a read fails, both with
    /// `number`; or with `NoMemory`.
    pub fn next<R: Feed>(
        alloc: Global,
        reader: &mut R,
        number: u64,
    ) -> Result<Option<Indexed>, IndexFault>
        ensures entry { IfOk result (λ next. IfSome next (GaveEntry (R.remaining reader.old) (R.remaining reader.new))) }
        ensures end { IfOk result (λ next. IfNone next (WasAtEnd (R.remaining reader.old) (R.remaining reader.new))) }
        ensures stops { IfErr result (StopsNext (R.remaining reader.old) number) }
        ensures failures { R.failed_reads reader.new ≡ count_after (failed_by blames_reader result) (R.failed_reads reader.old) }
    {
        let bytes = match take_codestream(alloc, reader) {
            Ok(Some(bytes)) => bytes,
            Ok(None) => return Ok(None),
            Err(Unread::Stream(fault)) => return Err(IndexFault::of(number, fault)),
            Err(Unread::Io) => return Err(IndexFault::Io(number)),
        };
        match headers_of(&bytes) {
            Ok(headers) => Ok(Some(Indexed { bytes, headers })),
            Err(fault) => Err(IndexFault::of(number, fault)),
        }
    }

    /// Takes the bytes if they are one codestream, complete by its markers and headers, with nothing after it;
    /// otherwise returns `None` and leaves them unchanged.
    pub fn take(alloc: Global, bytes: &mut Vec<u8>) -> Option<Indexed>
        ensures entry { IfSome result (λ entry. IsEntry entry × (entry.bytes ≡ bytes.old.items)) }
        ensures taken { IfSome result (λ entry. bytes.new.items ≡ []) }
        ensures none { IfNone result ((f : Picture) → Spells bytes.old.items f → ⊥) }
        ensures no_entry { IfNone result ((entry : Entry) → IsEntry entry → entry.bytes ≡ bytes.old.items → ⊥) }
        ensures left { IfNone result (bytes.new.items ≡ bytes.old.items) }
    {
        outlines_follow_the_grammar();
        match headers_of(bytes.as_slice()) {
            Ok(headers) => {
                if headers.used < bytes.len() {
                    return None;
                }
                let bytes = replace(bytes, Vec::new(alloc));
                Some(Indexed { bytes, headers })
            }
            Err(_) => None,
        }
    }

    /// The codestream's bytes.
    pub fn bytes(&self) -> &[u8]
        ensures value { result.now ≡ self.now.bytes }
        ensures few { length result.now ≤ most_bytes }
    {
        &self.bytes[..self.headers.used]
    }

    /// Gray or colour.
    pub fn kind(&self) -> Kind
        ensures { result ≡ self.now.kind }
    {
        self.headers.kind
    }

    /// The eight numbers of its line after the kind: width, height, MAXVAL, P, T1, T2, T3 and RESET.
    pub fn columns(&self) -> [u32; 8]
        ensures { result ≡ columns self.now }
    {
        let presets = self.headers.presets;
        [
            u32::from(self.headers.width),
            u32::from(self.headers.height),
            u32::from(presets.maxval()),
            u32::from(self.headers.precision),
            u32::from(presets.t1()),
            u32::from(presets.t2()),
            u32::from(presets.t3()),
            u32::from(presets.reset()),
        ]
    }
}

/// Reads the headers of the codestream at the front of the bytes, without decoding its data; or returns why there is
/// none.
fn headers_of(bytes: &[u8]) -> Result<Headers, StreamFault>
    ensures ok { IfOk result (HasHeaders bytes.now) }
    ensures none { IfErr result (λ fault. (front rest : List ℕ) (f : Picture) → bytes.now ≡ front ++ rest → Spells front f → ⊥) }
    ensures fault { IfErr result (λ fault. outline_of bytes.now ≡ Err fault) }
{
    outlines_follow_the_grammar();
    let opening = Opening::read(bytes)?;
    let used = match opening.skip() {
        Ok(used) => used,
        Err(fault) => return Err(fault),
    };
    let form = opening.form();
    Ok(Headers {
        used,
        precision: opening.precision(),
        kind: form.kind,
        width: form.width,
        height: form.height,
        presets: *opening.presets(),
    })
}
