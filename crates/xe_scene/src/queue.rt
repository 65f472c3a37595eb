//! Device queues of a script.
ghost use Rattle.std.specs.Prelude.{◌≡◌, ◌≤◌, length, slice_get, OnOk};
ghost use Rattle.xe_scene.specs.Queued.{empty_queue, widened, filled, without_first};

use crate::command::Item;
use std::alloc::{AllocError, Global};
use std::marker::Model;
use xe_base::Space;

/// A device queue, told by its space, its direction and its address.
#[derive(Clone, Copy, Debug, Default, PartialEq, Eq, PartialOrd, Ord)]
pub(crate) struct QueueName {
    pub(crate) space: Space,
    pub(crate) write: bool,
    pub(crate) address: u64,
}

impl QueueName {
    ghost use Rattle.xe_scene.specs.Queues.{name_of, script_key};

    /// The queue of a space, a direction and an address.
    pub(crate) fn new(space: Space, write: bool, address: u64) -> QueueName
        ensures { result ≡ name_of (script_key space write address) }
    {
        QueueName {
            space,
            write,
            address,
        }
    }
}

/// The items of one queue, with room for those that are still to be fed.
#[derive(Drop)]
pub(crate) struct Queue {
    items: Vec<Item>,
    /// How many items were taken.
    next: usize,
    /// How many more items may be fed.
    left: usize,
}

impl Model for Queue {
    ghost use Rattle.xe_scene.specs.Queued.{Queued};

    ghost Value = { Queued };

    ghost use Rattle.xe_scene.specs.QueueInside.{queued, IsRoomy};

    ghost view = { queued };

    ghost invariant = { IsRoomy };
}

impl Queue {
    /// A queue without items and without room.
    pub(crate) fn new(alloc: Global) -> Queue
        ensures { result ≡ empty_queue }
    {
        Queue {
            items: Vec::new(alloc),
            next: 0,
            left: 0,
        }
    }

    /// Makes room for so many more items.
    pub(crate) fn widen(&mut self, more: usize) -> Result<(), AllocError>
        ensures { OnOk result (self.new ≡ widened self.old more) }
    {
        // A sum past the range of lengths is more than memory holds.
        let left = self.left.checked_add(more).ok_or(AllocError)?;
        self.items.reserve(left)?;
        self.left = left;
        Ok(())
    }

    /// Appends items, into room that was made for them.
    pub(crate) fn feed(&mut self, items: &[Item])
        requires { length items.now ≤ self.old.left }
        ensures { self.new ≡ filled self.old items.now }
    {
        self.left -= items.len();
        // There is room, so memory is not asked for.
        let _ = self.items.extend_from_slice(items);
    }

    /// Takes the first item, if there is one.
    pub(crate) fn take(&mut self) -> Option<Item>
        ensures first { result ≡ slice_get self.old.waiting 0 }
        ensures rest { self.new ≡ without_first self.old }
    {
        if self.next < self.items.len() {
            let item = self.items[self.next];
            self.next += 1;
            Some(item)
        } else {
            None
        }
    }
}
