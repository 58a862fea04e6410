//! The memory of frames, for whole programs.
use std::alloc::Global;

/// malloc of the GNU C library can keep freed blocks of at most 32 MiB.
const LARGEST_KEPT: usize = 31 << 20;

/// Makes malloc reuse the memory of one frame for the next. A program calls it once, before its first frame.
///
/// malloc returns a freed block to the system if it is larger than 128 KiB and than each block freed before
/// (mallopt(3), M_MMAP_THRESHOLD). The next frame would then use new pages, each of which takes the system a
/// microsecond or more. So this allocates a large block and frees it. The cost is memory: a block that grows among
/// others that are kept leaves holes. It has no effect without the GNU C library, or if the allocation fails.
pub fn keep_blocks(alloc: Global) {
    let _freed = Vec::<u8>::with_capacity(alloc, LARGEST_KEPT);
}
