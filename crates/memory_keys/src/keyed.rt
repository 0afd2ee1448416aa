//! Regions found by their local keys.

ghost use Rattle.std.specs.Prelude.{◌≡◌, ◌<◌, ◌==◌, IfSome, length, position};

use crate::Regions;

impl Regions {
    /// What `place_of_key` gives. It looks first where a region was written last, and notes where it finds it.
    #[inline(always)]
    pub(crate) fn place_again(&mut self, key: u32) -> Option<usize>
        ensures place { result ≡ position (λ h. h.head.keys.local == key) self.old }
        ensures same { self.new ≡ self.old }
        ensures within { IfSome result (λ i. i < length self.old) }
    {
        match self.held.get_index(self.recent) {
            Some((found, _)) if *found == key => Some(self.recent),
            _ => {
                let place = self.held.get_index_of(&key)?;
                self.recent = place;
                Some(place)
            }
        }
    }

    /// The place of the region with a local key, in order of making; None where there is none.
    pub fn place_of_key(&self, key: u32) -> Option<usize>
        ensures place { result ≡ position (λ h. h.head.keys.local == key) self.now }
        ensures within { IfSome result (λ i. i < length self.now) }
    {
        self.held.get_index_of(&key)
    }
}
