//! The tests of `ls_bits`.
mod data;
mod page;
mod room_sink;
mod sink;
mod source;
mod testing;
