ghost use Rattle.std.specs.Prelude.{◌≡◌, ℕ, ◌<◌, length, replicate, None, slice_index_or};

/// One entry for each guard 0 to 31, or none until one is set: the table of a guard host, in fixed memory in place of a map.
#[derive(Drop)]
pub struct Guards<C> {
    pub(crate) entries: [Option<C>; 32],
    ghost full: { length entries ≡ 32 },
}

impl<C: Copy> Guards<C> {
    /// Has none set.
    pub fn new() -> Self
        ensures has_none_set { result.entries ≡ replicate 32 None }
    {
        Guards {
            entries: [None; 32],
        }
    }

    /// The entry of a guard.
    pub(crate) fn entry(&self, guard: u16) -> Option<C>
        ensures finds { result ≡ slice_index_or self.now.entries guard None }
        ensures ends { 31 < guard → result ≡ None }
    {
        self.entries.get(usize::from(guard)).copied().flatten()
    }
}
