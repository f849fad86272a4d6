//! All moments of the passes, in order.
ghost use Rattle.std.specs.Prelude.{◌≡◌, ◌++◌, ◌↔◌, ◌<◌, map, length, All, IfOk, OnOk, IsPermutation};
ghost use Rattle.std.specs.List.{flat_map};
ghost use Rattle.merge_runs.specs.Merged.{moments_of, IsInOrder, HaveDifferentActors};
ghost use Rattle.merge_runs.specs.Keyed.{moment_in, key_in, IsAt};
ghost use Rattle.merge_runs.specs.MergedRuns.{moments_at, moment_at, IsSpot};

use crate::keyed::Keyed;
use crate::spot::Spot;
use entry_words::Moment;
use passes::Pass;
use std::alloc::Global;
use tect_ids::NoMemory;

/// All moments of the passes, in order.
pub fn sorted_keyed<'a>(alloc: Global, passes: &'a [Pass]) -> Result<Vec<Keyed<'a>>, NoMemory>
    requires { HaveDifferentActors passes.now }
    ensures all { IfOk result (λ v. IsPermutation (flat_map moments_of passes.now) (map moment_in v.items)) }
    ensures order { IfOk result (λ v. IsInOrder (map moment_in v.items)) }
    ensures spots { IfOk result (λ v. All (IsAt passes.now) v.items) }
{
    let mut keyed = keyed_moments(alloc, passes)?;
    keyed.sort_by_key(|k| key_of(k))?;
    Ok(keyed)
}

// By stamp, then by place, then by actor.
fn key_of(keyed: &Keyed) -> (u64, u32, u32)
    ensures { result ≡ key_in keyed.now }
{
    (keyed.stamp, keyed.place, keyed.actor)
}

fn keyed_moments<'a>(alloc: Global, passes: &'a [Pass]) -> Result<Vec<Keyed<'a>>, NoMemory>
    ensures moments { IfOk result (λ v. map moment_in v.items ≡ flat_map moments_of passes.now) }
    ensures spots { IfOk result (λ v. All (IsAt passes.now) v.items) }
{
    let mut all = Vec::new(alloc);
    for pass in 0..passes.len() {
        append(&mut all, passes, pass)?;
    }
    Ok(all)
}

// The moments of the pass that stands there.
fn append<'a>(all: &mut Vec<Keyed<'a>>, passes: &'a [Pass], pass: usize) -> Result<(), NoMemory>
    requires within { pass < length passes.now }
    requires spots { All (IsAt passes.now) all.old.items }
    ensures moments { OnOk result (map moment_in all.new.items ≡ map moment_in all.old.items ++ moments_at passes.now pass) }
    ensures spots { OnOk result (All (IsAt passes.now) all.new.items) }
{
    let moments = passes[pass].moments();
    for moment in 0..moments.len() {
        all.push(Keyed::of(&moments[moment], Spot { pass, moment }))?;
    }
    Ok(())
}

/// The moments alone.
pub fn moments<'a>(alloc: Global, keyed: &[Keyed<'a>]) -> Result<Vec<&'a Moment>, NoMemory>
    ensures { IfOk result (λ v. map (λ m. m.now) v.items ≡ map moment_in keyed.now) }
{
    let mut moments = Vec::with_capacity(alloc, keyed.len())?;
    for k in keyed {
        moments.push(k.moment)?;
    }
    Ok(moments)
}

/// Where they stand.
pub fn spots_of(alloc: Global, keyed: &[Keyed]) -> Result<Vec<Spot>, NoMemory>
    ensures { IfOk result (λ v. v.items ≡ map (λ k. k.at) keyed.now) }
{
    let mut spots = Vec::with_capacity(alloc, keyed.len())?;
    for k in keyed {
        spots.push(k.at)?;
    }
    Ok(spots)
}
