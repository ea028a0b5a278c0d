//! The facts known of each slot at a place of the code, along several ways.

use crate::stop::Stop;
use std::alloc::{AllocError, Global};

/// How many changes are looked at in all, when ways part and come together. More are in hostile texts alone.
const MAX_LOOKED_AT: usize = 3_000_000;

/// A fact known of a slot.
pub trait State: Copy {
    /// The most that is known if either holds; none if there is no such fact.
    fn joined(self, other: Self) -> Option<Self>;
}

/// The fact known of one slot.
#[derive(Clone, Copy)]
pub struct Entry<S: Copy> {
    pub slot: usize,
    pub state: S,
}

/// The fact known of each slot, and the earlier one before each change.
pub struct Known<S: Copy> {
    alloc: Global,
    states: Vec<S>,
    trail: Vec<Entry<S>>,
    /// How many changes may still be looked at.
    left: usize,
}

impl<S: Copy> Drop for Known<S> {
    fn drop(self) {
        let Self {
            alloc: _,
            states: _,
            trail: _,
            left: _,
        } = self;
    }
}

/// Ways that come together: the changes of each since they parted.
pub struct Ways<S: Copy> {
    /// The number of changes when they parted.
    since: usize,
    coming: Changes<S>,
    /// Those that lead elsewhere. Their facts count only if none comes.
    leaving: Changes<S>,
}

/// The changes of some ways.
struct Changes<S: Copy> {
    ways: usize,
    entries: Vec<Entry<S>>,
}

impl<S: Copy> Drop for Changes<S> {
    fn drop(self) {
        let Self {
            ways: _,
            entries: _,
        } = self;
    }
}

impl<S: Copy> Changes<S> {
    fn new(alloc: Global) -> Changes<S> {
        Changes {
            ways: 0,
            entries: Vec::new(alloc),
        }
    }

    /// With those of a further way.
    fn add(&mut self, entries: &[Entry<S>]) -> Result<(), AllocError> {
        self.entries.extend_from_slice(entries)?;
        self.ways = self.ways.saturating_add(1);
        Ok(())
    }
}

impl<S: Copy> Drop for Ways<S> {
    fn drop(self) {
        let Self {
            since: _,
            coming: _,
            leaving: _,
        } = self;
    }
}

impl<S: Copy> Ways<S> {
    /// No ways yet, which part after `since` changes.
    pub fn new(alloc: Global, since: usize) -> Ways<S> {
        Ways {
            since,
            coming: Changes::new(alloc),
            leaving: Changes::new(alloc),
        }
    }
}

impl<S: State> Known<S> {
    /// The same fact for each of `count` slots.
    pub fn new(alloc: Global, count: usize, state: S) -> Result<Known<S>, AllocError> {
        let mut states = Vec::new(alloc);
        for _ in 0..count {
            states.push(state)?;
        }
        Ok(Known {
            alloc,
            states,
            trail: Vec::new(alloc),
            left: MAX_LOOKED_AT,
        })
    }

    /// The number of slots.
    pub fn slots(&self) -> usize {
        self.states.len()
    }

    /// The facts known of all slots.
    pub fn all(&self) -> Result<Vec<S>, AllocError> {
        Vec::from_slice(self.alloc, &self.states)
    }

    /// The fact known of a slot.
    pub fn at(&self, slot: usize) -> Result<S, Stop> {
        match self.states.get(slot) {
            Some(state) => Ok(*state),
            None => Err(Stop::NotCovered),
        }
    }

    /// From here on, this is known of a slot.
    pub fn set(&mut self, slot: usize, state: S) -> Result<(), Stop> {
        if slot >= self.states.len() {
            return Err(Stop::NotCovered);
        }
        let before = self.states[slot];
        self.trail.push(Entry {
            slot,
            state: before,
        })?;
        self.states[slot] = state;
        Ok(())
    }

    /// The number of changes so far.
    pub fn changes(&self) -> usize {
        self.trail.len()
    }

    /// Goes back to the state after this number of changes.
    pub fn undo(&mut self, changes: usize) {
        while self.trail.len() > changes {
            let Some(entry) = self.trail.pop() else {
                break;
            };
            if entry.slot < self.states.len() {
                self.states[entry.slot] = entry.state;
            }
        }
    }

    /// The facts known of the slots that changed, each once and in order.
    pub fn changed(&mut self, since: usize) -> Result<Vec<Entry<S>>, Stop> {
        let changes = self.trail.len().saturating_sub(since);
        let Some(left) = self.left.checked_sub(changes) else {
            return Err(Stop::NotCovered);
        };
        self.left = left;
        let alloc = self.alloc;
        let mut changed = Vec::new(alloc);
        let Some(entries) = self.trail.as_slice().get(since..) else {
            return Err(Stop::NotCovered);
        };
        for entry in entries {
            changed.push(Entry {
                slot: entry.slot,
                state: self.at(entry.slot)?,
            })?;
        }
        changed.sort_by_key(|entry| entry.slot)?;
        let mut once = Vec::new(alloc);
        let mut last = None;
        for entry in &changed {
            if last != Some(entry.slot) {
                once.push(*entry)?;
            }
            last = Some(entry.slot);
        }
        Ok(once)
    }

    /// The way that a run came is one of several; it may lead elsewhere.
    pub fn add(&mut self, ways: &mut Ways<S>, comes: bool) -> Result<(), Stop> {
        let changed = self.changed(ways.since)?;
        if comes {
            ways.coming.add(&changed)?;
        } else {
            ways.leaving.add(&changed)?;
        }
        Ok(())
    }

    /// Goes on where ways come together.
    pub fn meet(&mut self, ways: Ways<S>) -> Result<(), Stop> {
        self.undo(ways.since);
        if ways.coming.ways > 0 {
            self.meet_all(&ways.coming)
        } else {
            self.meet_all(&ways.leaving)
        }
    }

    fn meet_all(&mut self, changes: &Changes<S>) -> Result<(), Stop> {
        let count = changes.ways;
        let mut entries = Vec::from_slice(self.alloc, &changes.entries)?;
        entries.sort_by_key(|entry| entry.slot)?;
        let mut group: Option<Group<S>> = None;
        for entry in &entries {
            group = match group {
                Some(open) if open.slot == entry.slot => Some(open.with(entry.state)?),
                Some(open) => {
                    self.close(open, count)?;
                    Some(Group::new(*entry))
                }
                None => Some(Group::new(*entry)),
            };
        }
        match group {
            Some(open) => self.close(open, count),
            None => Ok(()),
        }
    }

    /// A fact that some ways know of a slot is known where all come together, as far as the others know it too.
    fn close(&mut self, group: Group<S>, count: usize) -> Result<(), Stop> {
        if group.count >= count {
            return self.set(group.slot, group.state);
        }
        let other = self.at(group.slot)?;
        let all = group.with(other)?;
        self.set(all.slot, all.state)
    }
}

/// The fact that some ways know of a slot.
#[derive(Clone, Copy)]
struct Group<S: Copy> {
    slot: usize,
    state: S,
    count: usize,
}

impl<S: State> Group<S> {
    fn new(entry: Entry<S>) -> Group<S> {
        Group {
            slot: entry.slot,
            state: entry.state,
            count: 1,
        }
    }

    /// With a further way.
    fn with(self, state: S) -> Result<Group<S>, Stop> {
        match self.state.joined(state) {
            Some(state) => Ok(Group {
                slot: self.slot,
                state,
                count: self.count.saturating_add(1),
            }),
            None => Err(Stop::NotCovered),
        }
    }
}
