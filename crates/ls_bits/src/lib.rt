//! Bits, the stuffing of bits into bytes (T.87 C.1), and Golomb code words (T.87 A.5.3).
//!
//! A sink collects bits, and stuffs them when it finishes (`specs/Stuffing.antt`); a source gives the bits of stuffed
//! bytes; code words are the standard's (`specs/Golomb.antt`); `data_of` finds the data at the front of bytes
//! (`specs/Data.antt`). `specs/Bits.antt` defines bits, bytes and numbers for the crates above too; `specs/View` says
//! how the code's values are seen as the standard's.
//!
//! ```
//! use ls_bits::{BitSink, BitSource, CodeFault, data_of};
//! use std::alloc::{AllocError, Global};
//!
//! /// The bytes of a code word: that of 17 for k 2 and values of 8 bits, in at most 31 bits.
//! fn write_word(alloc: Global) -> Result<Vec<u8>, AllocError> {
//!     let mut sink = BitSink::new(alloc);
//!     sink.put_golomb(2, 31, 8, 17)?;
//!     sink.finish()
//! }
//!
//! /// The value of such a word at the front of bytes.
//! fn read_word(bytes: &[u8]) -> Result<u32, CodeFault> {
//!     let mut source = BitSource::new(&bytes[..data_of(bytes).len]);
//!     source.take_golomb(2, 31, 8)
//! }
//! ```
//!
//! In reading order: `sink` (allocates its own memory), `room` and `slice_room` (the caller's memory), `room_sink`
//! (writes into such memory, without allocating), `packer` (what both sinks hold), `data`, `source`, `plain` (the
//! source's buffer of un-stuffed bits), `stuffed` (the bytes that it un-stuffs), `laws` (what follows from the
//! definitions alone).
#![tactic(auto)]

pub mod data;
pub mod laws;
mod packer;
mod plain;
pub mod room;
pub mod room_sink;
pub mod sink;
pub mod slice_room;
pub mod source;
mod stuffed;

pub use data::{Data, Stop, data_of};
pub use room::{Room, take_room};
pub use room_sink::RoomSink;
pub use sink::BitSink;
pub use slice_room::SliceRoom;
pub use source::{BitPlace, BitSource, CodeFault, InterruptedRun};
