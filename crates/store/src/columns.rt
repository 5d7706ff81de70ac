// What is done with the store's columns: Store::PLACES places, Store::WIDTH to a node, read by places from..end. (A part of a column stays two
// numbers that are asked to lie within it: a type for it would be built at each call only to be taken apart.)
ghost use Rattle.std.specs.Prelude.{◌≡◌, ◌≤◌, ◌<◌, ◌-◌, length, nat_lt};
ghost use Rattle.std.proofs.Math.Seq.{slice};
ghost use Rattle.plan.specs.Sizes.{most_nodes};
ghost use Rattle.lists.specs.Indexed.{tabulate};
ghost use Rattle.store.specs.Copies.{key_of, find, found_of};
ghost use Rattle.store.specs.Layout.{places, node_of, copy_of};
ghost use Rattle.store.specs.StoreRules.{all_zero};
ghost use Rattle.store.specs.Workers.{place_in, RisesIn, Ordered, opened};

use crate::{Copy, Store};

// The first of the places from..end whose key is not below the key, or end.
pub fn seek(keys: &[u32; Store::PLACES], from: usize, end: usize, key: u32) -> usize
    requires { (from ≤ end) × (end ≤ places) × RisesIn keys.now from end }
    ensures { result ≡ place_in keys.now from end key }
{
    let before = keys[from..end].partition_point(
        |here: &u32| -> bool
            ensures { result ≡ nat_lt here.now key }
        { *here < key },
    );
    from + before
}

// Looks in one node, and what stands at a place.
impl Store {
    // The copy at a place.
    pub fn copy_at(&self, place: usize) -> Copy
        requires { place < places }
        ensures { result ≡ copy_of self.now place }
    {
        Copy {
            key: self.keys[place],
            kind: self.kinds[place],
            value: self.values[place],
            stamp: self.stamps[place],
        }
    }

    // The copy of the key among the places from..end, by halves, or nothing. (Looking for a copy leaves its loop by break, which is document 01's form;
    // `seek` is by the library.)
    fn look_among(&self, from: usize, end: usize, key: u32) -> Option<Copy>
        requires { (from ≤ end) × (end ≤ places) × RisesIn self.now.keys from end }
        ensures { result ≡ found_of (find key_of (tabulate from (end - from) (copy_of self.now)) key) }
    {
        let mut low = from;
        let mut high = end;
        let at = loop {
            if high <= low {
                return None;
            }
            let mid = low + (high - low) / 2;
            let here = self.keys[mid];
            if here == key {
                break mid;
            }
            if here < key {
                low = mid + 1;
            } else {
                high = mid;
            }
        };
        Some(self.copy_at(at))
    }

    // The copy of the key in the node, or nothing.
    pub fn look_in(&self, node: u32, key: u32) -> Option<Copy>
        requires { (node < most_nodes) × Ordered self.now.counts self.now.keys node }
        ensures { result ≡ found_of (find key_of (node_of self.now node) key) }
    {
        let n = node as usize;
        let from = Store::WIDTH * n;
        self.look_among(from, from + self.counts[n] as usize, key)
    }
}

// The number put in at a place; those from there up to end move one place up, over the one at end.
pub fn open(column: &mut [u32; Store::PLACES], at: usize, end: usize, number: u32)
    requires { (at ≤ end) × (end < places) }
    ensures { column.new ≡ opened column.old at end number }
{
    column.copy_within(at..end, at + 1);
    column[at] = number;
}

// The places from..end of the column are all zero: their bits are laid together, with no way out before the end. (By index: of a slice's items the
// compiler does not see that they are few, and the check of a fresh store then takes a quarter longer.)
pub fn all_zero(column: &[u32; Store::PLACES], from: usize, end: usize) -> bool
    requires { (from ≤ end) × (end ≤ places) }
    ensures { result ≡ all_zero (slice from end column.now) }
{
    let mut seen = 0;
    for i in from..end {
        seen |= column[i];
    }
    seen == 0
}
