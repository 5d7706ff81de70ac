// What an entry is decided to be, before anything is written: whether it is accepted, and the place of its copy.
ghost use Rattle.std.specs.Prelude.{◌≤◌};
ghost use Rattle.store.specs.Layout.{width};
ghost use Rattle.store.specs.Workers.{Ordered};
ghost use Rattle.entries.specs.Decisions.{Decides};

use store::{Store, columns};

// At which place the copy of an accepted entry then stands, up to which place the root's copies move one place up; and the root's count after
// it.
#[derive(Clone, Copy)]
pub struct Place {
    pub at: usize,
    pub end: usize,
    pub count: u32,
}

// "A root copy of that key is replaced; otherwise one is added if the root has a free place." Where a copy is replaced none moves up, and the
// count stays. Nothing where the entry is refused. By the counts and the keys alone: it is right for every good store that has these, and a root
// of this capacity.
pub fn decide(store: &Store, capacity: u32, key: u32) -> Option<Place>
    requires { Ordered store.now.counts store.now.keys 0 × (capacity ≤ width) }
    ensures { Decides store.now capacity key result }
{
    let count = store.counts[0];
    let end = count as usize;
    let at = columns::seek(&store.keys, 0, end, key);
    if at < end && store.keys[at] == key {
        return Some(Place { at, end: at, count });
    }
    if count < capacity {
        return Some(Place {
            at,
            end,
            count: count + 1,
        });
    }
    None
}
