//! The least number of hops from each name to one where a word may stop, by a walk back.

ghost use Rattle.std.specs.Prelude.{◌≡◌, ◌<◌, ◌↔◌, [], ℕ, All, IfOk, OnOk, length};
ghost use Rattle.fst_machine.specs.BreadthFirst.{Has};
ghost use Rattle.fst_nbest.specs.Counts.{AreStops, Hops, IsLeastCount, Meets, MeetsAll, count_of, uncounted};

use fst_trim::Link;
use std::alloc::{AllocError, Global};

/// The number of a name that is not counted.
pub(crate) const UNCOUNTED: u32 = 4_294_967_295;

/// Names with hops between them, each along a link, seen from where the hops lead.
pub(crate) trait Backward<V> {
    ghost use Rattle.std.specs.Prelude.{◌≡◌, ◌<◌, ◌≤◌, ◌↔◌, ◌⊎◌, ℕ, List, All, OnOk};
    ghost use Rattle.std.specs.Bool.{Decides};
    ghost use Rattle.fst_machine.specs.BreadthFirst.{Has};
    ghost use Rattle.fst_trim.specs.Links.{Link as LinkValue};

    /// How many names there are.
    ghost size: { Self → ℕ };

    /// Where a word may stop.
    ghost stops: { Self → ℕ → Type 0 };

    /// The links to a name.
    ghost links: { Self → ℕ → List (LinkValue V) };

    /// Whether a link leads from one name to another.
    ghost leads: { Self → LinkValue V → ℕ → ℕ → Type 0 };

    /// The number of names.
    fn name_count(&self) -> u32
        ensures count { result ≡ size self.now }
        ensures few { result ≤ 8388608 };

    /// Whether a word may stop at a name.
    fn is_stop(&self, name: u32) -> bool
        requires { name < size self.now }
        ensures { Decides result (stops self.now name) };

    /// The links to a name.
    fn links_to(&self, name: u32) -> &[Link<V>]
        requires { name < size self.now }
        ensures { result.now ≡ links self.now name };

    /// Puts the names from which a link leads to a name.
    fn put_source(
        &self,
        sources: &mut Vec<u32>,
        link: &Link<V>,
        name: u32,
    ) -> Result<(), AllocError>
        requires name { name < size self.now }
        requires link { Has (links self.now name) link.now }
        ensures just { OnOk result ((x : ℕ) → Has sources.new.items x ↔ (Has sources.old.items x ⊎ leads self.now link.now x name)) }
        ensures low { OnOk result (All (λ x. x < size self.now) sources.old.items → All (λ x. x < size self.now) sources.new.items) };

    // A word stops at a name alone.
    ghost within: { (s : Self) (x : ℕ) → stops s x → x < size s };
}

/// Counts a name, if it is not counted yet.
fn meet(
    counts: &mut Vec<u32>,
    names: &mut Vec<u32>,
    name: u32,
    count: u32,
) -> Result<(), AllocError>
    requires { name < length counts.old.items }
    ensures met { OnOk result (Meets count counts.old.items names.old.items name counts.new.items names.new.items) }
    ensures size { length counts.new.items ≡ length counts.old.items }
{
    if counts[name as usize] != UNCOUNTED {
        return Ok(());
    }
    names.push(name)?;
    counts[name as usize] = count;
    Ok(())
}

/// Counts each of these names that is not counted yet.
fn meet_all(
    counts: &mut Vec<u32>,
    names: &mut Vec<u32>,
    sources: &[u32],
    count: u32,
) -> Result<(), AllocError>
    requires { All (λ x. x < length counts.old.items) sources.now }
    ensures met { OnOk result (MeetsAll count counts.old.items names.old.items sources.now counts.new.items names.new.items) }
    ensures size { length counts.new.items ≡ length counts.old.items }
{
    for name in sources {
        meet(counts, names, *name, count)?;
    }
    Ok(())
}

/// The names that lead to a name.
fn put_sources<V, B: Backward<V>>(
    back: &B,
    sources: &mut Vec<u32>,
    name: u32,
) -> Result<(), AllocError>
    requires name { name < B.size back.now }
    requires clear { sources.old.items ≡ [] }
    ensures just { OnOk result ((x : ℕ) → Has sources.new.items x ↔ Hops (B.links back.now) (B.leads back.now) x name) }
    ensures low { OnOk result (All (λ x. x < B.size back.now) sources.new.items) }
{
    for link in back.links_to(name) {
        back.put_source(sources, link, name)?;
    }
    Ok(())
}

/// Counts the names where a word may stop.
fn meet_stops<V, B: Backward<V>>(
    back: &B,
    counts: &mut Vec<u32>,
    names: &mut Vec<u32>,
) -> Result<(), AllocError>
    requires size { length counts.old.items ≡ B.size back.now }
    requires blank { (x : ℕ) → count_of counts.old.items x ≡ uncounted }
    requires clear { names.old.items ≡ [] }
    ensures { OnOk result (AreStops (B.stops back.now) (B.size back.now) (B.size back.now) counts.new.items names.new.items) }
{
    for name in 0..back.name_count() {
        if !back.is_stop(name) {
            continue;
        }
        meet(counts, names, name, 0)?;
    }
    Ok(())
}

/// The least number of hops from each name to one where a word may stop; `UNCOUNTED` where there are none.
///
/// Time: linear in the names and the hops.
pub(crate) fn counts_back<V, B: Backward<V>>(
    alloc: Global,
    back: &B,
) -> Result<Vec<u32>, AllocError>
    ensures size { IfOk result (λ v. length v.items ≡ B.size back.now) }
    ensures least { IfOk result (λ v. (x : ℕ) → IsLeastCount (B.stops back.now) (Hops (B.links back.now) (B.leads back.now)) x (count_of v.items x)) }
{
    let mut counts = vec![in alloc; UNCOUNTED; back.name_count() as usize]?;
    let mut names = Vec::new(alloc);
    let mut sources = Vec::new(alloc);
    meet_stops::<V, B>(back, &mut counts, &mut names)?;
    let mut taken = 0;
    while taken < names.len() {
        let name = names[taken];
        let count = counts[name as usize];
        sources.clear();
        put_sources::<V, B>(back, &mut sources, name)?;
        meet_all(&mut counts, &mut names, sources.as_slice(), count + 1)?;
        taken += 1;
    }
    Ok(counts)
}
