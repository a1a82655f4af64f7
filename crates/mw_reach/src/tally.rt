ghost use Rattle.std.specs.Prelude.{◌≡◌, ◌<◌, ◌+◌, ◌^◌, ℕ, All, true, false, length, replicate, slice_set};
ghost use Rattle.mw_rules.specs.Holds.{bag_of, places_of};
ghost use Rattle.mw_multi.specs.Placement.{numbers_at};
ghost use Rattle.mw_reach.specs.Reach.{times_in};
ghost use Rattle.mw_reach.specs.Counts.{CountsFit, LiesWithin};

use mw_multi::Placed;

/// The places that are done, and what counts with them.
pub struct Tally {
    /// For each place, whether it is in the list and the rules see it.
    pub done: Vec<bool>,
    /// For each item, how many there are at the places that are done, and in the base.
    pub counts: Vec<u32>,
}

/// By hand, so that whoever lets it go calls this, and what it frees is listed once.
impl Drop for Tally {
    fn drop(self) {
        let Tally { done: _, counts: _ } = self;
    }
}

/// Counts each of the items once more.
#[inline(always)]
fn count_items(items: &[u32], counts: &mut [u32])
    requires items { All (λ i. i < length counts.old) items.now }
    requires room { (i : ℕ) → bag_of counts.old i + times_in i items.now < 2 ^ 32 }
    ensures { (i : ℕ) → bag_of counts.new i ≡ bag_of counts.old i + times_in i items.now }
{
    for &item in items {
        counts[item as usize] += 1;
    }
}

impl Tally {
    /// Whether the place is done.
    #[inline(always)]
    pub(crate) fn has(&self, place: u32) -> bool
        requires { place < length self.now.done.items }
        ensures { result ≡ places_of self.now.done.items place }
    {
        let done = self.done.as_slice();
        done[place as usize]
    }

    /// No place, and the base's counts.
    pub(crate) fn start(&mut self, base: &[u32])
        requires base { length base.now ≡ length self.old.counts.items }
        ensures done { self.new.done.items ≡ replicate (length self.old.done.items) false }
        ensures counts { self.new.counts.items ≡ base.now }
    {
        self.done.as_mut_slice().fill(false);
        self.counts.as_mut_slice().copy_from_slice(base);
    }

    /// Counts each of the items once more.
    #[inline(always)]
    pub(crate) fn count(&mut self, items: &[u32])
        requires items { All (λ i. i < length self.old.counts.items) items.now }
        requires room { (i : ℕ) → bag_of self.old.counts.items i + times_in i items.now < 2 ^ 32 }
        ensures done { self.new.done.items ≡ self.old.done.items }
        ensures items { length self.new.counts.items ≡ length self.old.counts.items }
        ensures counts { (i : ℕ) → bag_of self.new.counts.items i ≡ bag_of self.old.counts.items i
            + times_in i items.now }
    {
        count_items(items, self.counts.as_mut_slice());
    }

    /// Adds a place that isn't in the list, and what lies there.
    #[inline(always)]
    pub(crate) fn add(&mut self, place: u32, placed: &Placed)
        requires place { place < length self.old.done.items }
        requires placed { length placed.now ≡ length self.old.done.items }
        requires items { LiesWithin (length self.old.counts.items) placed.now }
        requires new { places_of self.old.done.items place ≡ false }
        requires room { CountsFit placed.now self.old.done.items self.old.counts.items }
        ensures place { self.new.done.items ≡ slice_set self.old.done.items place true }
        ensures items { length self.new.counts.items ≡ length self.old.counts.items }
        ensures counts { (i : ℕ) → bag_of self.new.counts.items i ≡ bag_of self.old.counts.items i
            + times_in i (numbers_at placed.now place) }
    {
        self.done[place as usize] = true;
        self.count(placed.at(place));
    }
}
