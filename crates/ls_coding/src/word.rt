//! The code word of a sample (T.87 A.5.3).

/// The code word of one sample: LG(k, glimit) of a value (T.87 A.5.3), with the qbpp of the scan's MAXVAL.
///
/// Its bits are put by `put_golomb` of `ls_bits`, whose requirements it meets as it is.
#[derive(Clone, Copy, Debug, PartialEq, Eq)]
pub struct Word {
    /// The Golomb parameter, at most qbpp + 1: in a short word, the number of the value's low bits after the bit 1.
    pub k: u32,
    /// The most bits that the word may have: LIMIT, or LIMIT - J - 1 if the sample interrupts a run.
    pub glimit: u32,
    /// The mapped error, 0 to 2^qbpp: MErrval of a sample of regular mode (A.5.2), EMErrval of one that interrupts a
    /// run (A.7.2).
    pub value: u32,
}
