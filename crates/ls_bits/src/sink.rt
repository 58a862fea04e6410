//! A bit sink that allocates its own memory.
ghost use Rattle.std.specs.Prelude.{◌≡◌, ◌^◌, ◌<◌, ◌≤◌, ◌++◌, [], OnOk, OnErr, IfOk};
ghost use Rattle.ls_bits.specs.Bits.{bits_of};
ghost use Rattle.ls_bits.specs.Stuffing.{stuff};
ghost use Rattle.ls_bits.specs.Golomb.{IsGolomb, code_word, most_value};

use crate::packer::Packer;
use std::alloc::{AllocError, Global};
use std::marker::Model;

/// The bits put so far, in order; `finish` stuffs them into bytes (T.87 C.1).
///
/// For callers that know no bound on their bits beforehand: it allocates as it grows. The encoder itself uses
/// `RoomSink`, into memory whose size it knows beforehand.
#[derive(Drop)]
pub struct BitSink {
    packer: Packer<Vec<u8>>,
}

impl Model for BitSink {
    ghost use Rattle.std.specs.Prelude.{◌≡◌, [], Bool, List};

    ghost Value = { List Bool };

    ghost view = { λ s. s.packer.bits };

    ghost invariant = { λ s. s.packer.front ≡ [] };
}

impl BitSink {
    /// A sink with no bits yet. `alloc` is for their bytes; nothing is allocated here.
    pub fn new(alloc: Global) -> BitSink
        ensures { result ≡ [] }
    {
        BitSink {
            packer: Packer::new(Vec::new(alloc)),
        }
    }

    /// Appends `value` in `count` bits, the most significant first.
    ///
    /// `count` is at most 32, and `value` is below 2^count. Its only error is `AllocError`; the sink is unchanged then
    /// and can be used again.
    pub fn put(&mut self, value: u32, count: u32) -> Result<(), AllocError>
        requires count { count ≤ 32 }
        requires value { value < 2 ^ count }
        ensures ok { OnOk result (self.new ≡ self.old ++ bits_of count value) }
        ensures refused { OnErr result (self.new ≡ self.old) }
    {
        self.packer.reserve()?;
        self.packer.put(value, count);
        Ok(())
    }

    /// Appends the code word of `v`: LG(k, glimit) of T.87 A.5.3, of at most glimit bits.
    ///
    /// `qbpp` is at most 16, `k` at most qbpp + 1, `glimit` from qbpp + 2 to 64, and `v` at most 2^qbpp. Its only error
    /// is `AllocError`; the sink is unchanged then and can be used again.
    pub fn put_golomb(&mut self, k: u32, glimit: u32, qbpp: u32, v: u32) -> Result<(), AllocError>
        requires code { IsGolomb k glimit qbpp }
        requires value { v ≤ most_value qbpp }
        ensures ok { OnOk result (self.new ≡ self.old ++ code_word k glimit qbpp v) }
        ensures refused { OnErr result (self.new ≡ self.old) }
    {
        self.packer.reserve()?;
        self.packer.put_golomb(k, glimit, qbpp, v);
        Ok(())
    }

    /// Stuffs the bits into bytes (T.87 C.1). The last byte is filled with bits 0, and 00 follows it if it is FF. A
    /// sink without bits gives no bytes.
    ///
    /// Its only error is `AllocError`. The sink is consumed either way; on an error its bits are lost.
    pub fn finish(mut self) -> Result<Vec<u8>, AllocError>
        ensures { IfOk result (λ bytes. bytes.items ≡ stuff self) }
    {
        self.packer.reserve()?;
        Ok(self.packer.finish())
    }
}
