//! The tests of `ls_frame`.
mod buffered;
mod device;
mod frame;
mod netpbm;
mod output;
mod page;
mod presets;
mod samples;
mod testing;
mod tuning;
mod written;
