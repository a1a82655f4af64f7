ghost use Rattle.std.specs.Prelude.{◌≡◌, ◌<◌, ◌+◌, true, false, length, replicate, slice_index, slice_set};
ghost use Rattle.mw_rules.specs.Holds.{places_of};

/// The places of the list, and those that wait to be visited.
pub struct Frontier {
    /// For each place, whether it is in the list or waits for it.
    pub listed: Vec<bool>,
    /// The places that wait, in the order in which they were found.
    pub queue: Vec<u32>,
    /// How many places the queue has; what stands behind them is of earlier walks.
    pub len: usize,
}

/// By hand, so that whoever lets it go calls this, and what it frees is listed once.
impl Drop for Frontier {
    fn drop(self) {
        let Frontier {
            listed: _,
            queue: _,
            len: _,
        } = self;
    }
}

impl Frontier {
    /// Whether the place is listed.
    #[inline(always)]
    pub(crate) fn has(&self, place: u32) -> bool
        requires { place < length self.now.listed.items }
        ensures { result ≡ places_of self.now.listed.items place }
    {
        let listed = self.listed.as_slice();
        listed[place as usize]
    }

    /// The place with this number in the queue, from 0.
    #[inline(always)]
    pub(crate) fn place_at(&self, number: usize) -> u32
        requires { number < length self.now.queue.items }
        ensures { result ≡ slice_index self.now.queue.items number }
    {
        let queue = self.queue.as_slice();
        queue[number]
    }

    /// No place listed.
    pub(crate) fn clear(&mut self)
        ensures listed { self.new.listed.items ≡ replicate (length self.old.listed.items) false }
        ensures queue { self.new.queue.items ≡ self.old.queue.items }
        ensures len { self.new.len ≡ 0 }
    {
        self.listed.as_mut_slice().fill(false);
        self.len = 0;
    }

    /// These places listed, none of which waits.
    pub(crate) fn list_done(&mut self, done: &[bool])
        requires size { length done.now ≡ length self.old.listed.items }
        ensures listed { self.new.listed.items ≡ done.now }
        ensures queue { self.new.queue.items ≡ self.old.queue.items }
        ensures len { self.new.len ≡ 0 }
    {
        self.listed.as_mut_slice().copy_from_slice(done);
        self.len = 0;
    }

    /// Lists a place, which then waits.
    #[inline(always)]
    pub(crate) fn list(&mut self, place: u32)
        requires place { place < length self.old.listed.items }
        requires space { self.old.len < length self.old.queue.items }
        ensures listed { self.new.listed.items ≡ slice_set self.old.listed.items place true }
        ensures queue { self.new.queue.items ≡ slice_set self.old.queue.items self.old.len place }
        ensures len { self.new.len ≡ self.old.len + 1 }
    {
        self.listed[place as usize] = true;
        self.queue[self.len] = place;
        self.len += 1;
    }
}
