//! A table of regions, by which a context is completed (T.87 A.3.3, A.3.4).
ghost use Rattle.std.specs.Prelude.{◌≡◌, ◌+◌, ◌*◌, ◌<◌, ◌≤◌, ℕ, pos, neg_ℤ, ◌-ℤ◌, ◌≤ℤ◌, length, IfOk};
ghost use Rattle.ls_frame.specs.Parameters.{IsLegal};
ghost use Rattle.ls_coding.specs.Contexts.{region, IsRegion, is_zero, is_run};
ghost use Rattle.ls_coding.specs.View.SignedContexts.{signed_context, half_context};
ghost use Rattle.ls_coding.specs.View.RegionTables.{AreRegions};

use crate::context::region_of;
use ls_frame::Presets;
use std::alloc::{AllocError, Global};
use std::marker::Model;

/// The region of each difference of two samples, -MAXVAL to MAXVAL (A.3.3). One table serves any number of scans with
/// the same parameters.
///
/// In contracts the table stands for these parameters.
#[derive(Drop)]
pub struct Regions {
    presets: Presets,
    /// The regions, starting with that of -MAXVAL.
    table: Vec<i8>,
}

impl Model for Regions {
    ghost use Rattle.ls_frame.specs.Parameters.{Parameters};
    ghost use Rattle.ls_coding.specs.View.RegionTables.{AreRegions};

    ghost Value = { Parameters };

    ghost view = { λ r. r.presets };

    ghost invariant = { λ r. AreRegions r.presets r.table.items };
}

impl Regions {
    /// The table for these parameters. Its only error is `AllocError`.
    pub fn new(alloc: Global, presets: &Presets) -> Result<Regions, AllocError>
        ensures { IfOk result (λ regions. regions ≡ presets.now) }
    {
        let presets = *presets;
        let places = 2 * usize::from(presets.maxval()) + 1;
        let mut table = vec![in alloc; 0i8; places]?;
        fill_table(presets, &mut table);
        Ok(Regions { presets, table })
    }

    /// The parameters and the table, to be held by value. Allocates nothing and cannot fail.
    pub fn view(&self) -> RegionsView<'_>
        ensures { result ≡ self.now }
    {
        RegionsView {
            presets: self.presets,
            table: &self.table,
        }
    }
}

/// The table of a `Regions`, and its parameters. The decoder holds it by value, so that both stay in registers.
///
/// In contracts it stands for the parameters, as `Regions` does.
#[derive(Drop)]
pub struct RegionsView<'a> {
    presets: Presets,
    /// The regions, starting with that of -MAXVAL.
    table: &'a [i8],
}

impl<'a> Model for RegionsView<'a> {
    ghost use Rattle.ls_frame.specs.Parameters.{Parameters};
    ghost use Rattle.ls_coding.specs.View.RegionTables.{AreRegions};

    ghost Value = { Parameters };

    ghost view = { λ r. r.presets };

    ghost invariant = { λ r. AreRegions r.presets r.table.now };
}

impl<'a> RegionsView<'a> {
    /// The context of a sample and its sign as one number, as `signed_context` gives it, from `half`: what
    /// `half_context` gives for these parameters and the sample's Rb, Rc and Rd.
    ///
    /// Requires Ra and Rc of at most the parameters' `maxval`, and a half of -360 to 360, as `half_context` gives it.
    /// Allocates nothing and cannot fail.
    pub fn whole_context(&self, half: i16, a: u16, c: u16) -> i16
        requires half_low { neg_ℤ (pos 360) ≤ℤ half }
        requires half_high { half ≤ℤ pos 360 }
        requires left { a ≤ self.now.maxval }
        requires above_left { c ≤ self.now.maxval }
        ensures value { (b d : ℕ) → half ≡ half_context self.now b c d
            → result ≡ signed_context self.now (record { a = a; b = b; c = c; d = d }) }
        ensures run { (b d : ℕ) → half ≡ half_context self.now b c d
            → is_zero result ≡ is_run (record { a = a; b = b; c = c; d = d }) }
        ensures low { neg_ℤ (pos 364) ≤ℤ result }
        ensures high { result ≤ℤ pos 364 }
    {
        half + self.region(c, a)
    }

    /// The region of the gradient `over` - `other`, both at most MAXVAL.
    fn region(&self, over: u16, other: u16) -> i16
        requires over { over ≤ self.now.maxval }
        requires other { other ≤ self.now.maxval }
        ensures value { result ≡ region self.now (pos over -ℤ pos other) }
        ensures region { IsRegion result }
        ensures legal { IsLegal self.now }
    {
        let place = usize::from(self.presets.maxval()) + usize::from(over) - usize::from(other);
        i16::from(self.table[place])
    }
}

/// As `RegionsView::whole_context`, by the table itself.
pub fn whole_context(regions: &Regions, half: i16, a: u16, c: u16) -> i16
    requires half_low { neg_ℤ (pos 360) ≤ℤ half }
    requires half_high { half ≤ℤ pos 360 }
    requires left { a ≤ regions.now.maxval }
    requires above_left { c ≤ regions.now.maxval }
    ensures value { (b d : ℕ) → half ≡ half_context regions.now b c d
        → result ≡ signed_context regions.now (record { a = a; b = b; c = c; d = d }) }
    ensures run { (b d : ℕ) → half ≡ half_context regions.now b c d
        → is_zero result ≡ is_run (record { a = a; b = b; c = c; d = d }) }
    ensures low { neg_ℤ (pos 364) ≤ℤ result }
    ensures high { result ≤ℤ pos 364 }
{
    regions.view().whole_context(half, a, c)
}

/// Fills the table with the region of each difference.
fn fill_table(presets: Presets, table: &mut [i8])
    requires { length table.old ≡ 2 * presets.maxval + 1 }
    ensures { AreRegions presets table.new }
{
    let maxval = u32::from(presets.maxval());
    for place in 0..table.len() {
        table[place] = region_at(presets, maxval, place as u32);
    }
}

/// The region at a place of the table: that of the gradient `place` - `maxval`.
fn region_at(presets: Presets, maxval: u32, place: u32) -> i8
    requires maxval { maxval ≡ presets.maxval }
    requires place { place ≤ 2 * maxval }
    ensures { result ≡ region presets (pos place -ℤ pos maxval) }
{
    let over = place.saturating_sub(maxval) as u16;
    let under = maxval.saturating_sub(place) as u16;
    region_of(presets, over, under) as i8
}
