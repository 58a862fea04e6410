use crate::bits::testing::{check_answer, check_bytes};
use ls_bits::{BitSink, BitSource, CodeFault, data_of};
use std::alloc::{AllocError, Global};

/// The bytes of a code word: that of 17 for k 2 and values of 8 bits, in at most 31 bits.
fn write_word(alloc: Global) -> Result<Vec<u8>, AllocError> {
    let mut sink = BitSink::new(alloc);
    sink.put_golomb(2, 31, 8, 17)?;
    sink.finish()
}

/// The value of such a word at the front of bytes.
fn read_word(bytes: &[u8]) -> Result<u32, CodeFault> {
    let mut source = BitSource::new(&bytes[..data_of(bytes).len]);
    source.take_golomb(2, 31, 8)
}

#[test]
fn the_page_writes_a_word_and_reads_it_with_ample_memory(rt: HostRuntime) {
    let bytes = write_word(rt.alloc()).expect(&rt, "memory");
    check_bytes(&rt, &bytes, &[0x0a]);
    check_answer(&rt, read_word(&bytes), Ok(17), &bytes);
}
