//! Laws about the definitions alone. Each is the contract of a function with an empty body.
ghost use Rattle.std.specs.Prelude.{◌≡◌, ◌+◌, ◌^◌, ◌<◌, ◌≤◌, ◌++◌, [], List, length, ℕ, None};
ghost use Rattle.ls_frame.specs.declared.netpbm.NetpbmFault.{NetpbmFault};
ghost use Rattle.ls_frame.specs.Picture.{Picture, IsFrame};
ghost use Rattle.ls_frame.specs.Netpbm.{IsImageOf, NoImage};
ghost use Rattle.ls_frame.specs.Canonical.{canonical};
ghost use Rattle.ls_frame.specs.Faults.{Breaks};
ghost use Rattle.ls_frame.specs.Parameters.{Parameters, IsLegal, default_parameters, preset_fault, ceil_log2};

/// No Netpbm image is a proper prefix of another.
pub fn no_image_begins_another()
    ensures { (front rest : List ℕ) (f g : Picture) → IsImageOf front f → IsImageOf (front ++ rest) g → rest ≡ [] }
{}

/// The bytes of an image determine its frame.
pub fn images_have_one_frame()
    ensures { (bytes : List ℕ) (f g : Picture) → IsImageOf bytes f → IsImageOf bytes g → f ≡ g }
{}

/// The canonical text of a frame is an image of it.
pub fn canonical_text_spells_its_frame()
    ensures { (f : Picture) → IsFrame f → IsImageOf (canonical f) f }
{}

/// The canonical text of a frame has fewer than 2^32 bytes.
pub fn canonical_texts_are_short()
    ensures { (f : Picture) → IsFrame f → length (canonical f) < 2 ^ 32 }
{}

/// Bytes break the grammar with at most one fault.
pub fn bytes_break_in_one_way()
    ensures { (bytes : List ℕ) (fault other : NetpbmFault) → Breaks bytes fault → Breaks bytes other → fault ≡ other }
{}

/// Bytes that break the grammar don't begin with an image. The empty input doesn't break it.
pub fn bytes_break_or_hold_an_image()
    ensures broken { (bytes : List ℕ) (fault : NetpbmFault) → Breaks bytes fault → NoImage bytes }
    ensures none { (fault : NetpbmFault) → Breaks [] fault → ⊥ }
{}

/// For a number up to 2^16, `ceil_log2` is the least exponent whose power of two is at least the number.
pub fn ceil_log2_is_least()
    ensures reaches { (n : ℕ) → n ≤ 2 ^ 16 → n ≤ 2 ^ ceil_log2 n }
    ensures least { (n exponent : ℕ) → n ≤ 2 ^ exponent → ceil_log2 n ≤ exponent }
{}

/// The default parameters for a MAXVAL from 1 to 65535 are within Table C.2, and have this MAXVAL.
pub fn default_parameters_are_legal()
    ensures legal { (maxval : ℕ) → 0 < maxval → maxval ≤ 65535 → IsLegal (default_parameters maxval) }
    ensures maxval { (maxval : ℕ) → (default_parameters maxval).maxval ≡ maxval }
{}

/// Parameters with a MAXVAL of at most 65535 are within Table C.2 exactly if `preset_fault` finds no fault.
pub fn parameters_are_legal_or_at_fault()
    ensures legal { (p : Parameters) → p.maxval ≤ 65535 → preset_fault p ≡ None → IsLegal p }
    ensures none { (p : Parameters) → IsLegal p → preset_fault p ≡ None }
{}
