use fly_types::NoMemory;
use std::alloc::Global;
use std::marker::Model;

/// What the items of an array came to so far. Contracts see a list with `None` for each item that isn't settled, and
/// for each other one whether it succeeded.
#[derive(Debug, Drop)]
pub struct Items {
    ends: Vec<Option<bool>>,
    settled: u32,
    successes: u32,
}

impl Model for Items {
    ghost use Rattle.std.specs.Prelude.{◌≡◌, ◌<◌, ◌^◌, List, Option, Bool, length};
    ghost use Rattle.fly_policy.specs.Items.{settled_count, success_count};

    ghost Value = { List (Option Bool) };

    ghost view = { λ i. i.ends.items };

    ghost invariant = { λ i. (length i.ends.items < 2 ^ 32) × (i.settled ≡ settled_count i.ends.items)
        × (i.successes ≡ success_count i.ends.items) };
}

impl Items {
    ghost use Rattle.std.specs.Prelude.{◌≡◌, ◌↔◌, ◌<◌, ◌≤◌, Some, None, length, replicate, slice_get, slice_set, Contains, IsTrue, IfOk, IfSome};
    ghost use Rattle.fly_policy.specs.Items.{settled_count, success_count, minimum};

    /// So many items, none of them settled.
    pub fn make(alloc: Global, count: u32) -> Result<Items, NoMemory>
        ensures { IfOk result (λ items. items ≡ replicate count None) }
    {
        Ok(Items {
            ends: vec![in alloc; None; count as usize]?,
            settled: 0,
            successes: 0,
        })
    }

    /// What the item came to.
    pub fn end_of(&self, item: u32) -> Option<bool>
        requires { item < length self.now }
        ensures { slice_get self.now item ≡ Some result }
    {
        self.ends[item as usize]
    }

    /// The item came to success or failure.
    pub fn settle(&mut self, item: u32, ok: bool)
        requires { slice_get self.old item ≡ Some None }
        ensures { self.new ≡ slice_set self.old item (Some ok) }
    {
        self.ends[item as usize] = Some(ok);
        self.settled += 1;
        if ok {
            self.successes += 1;
        }
    }

    /// How many items are settled, and how many of them succeeded.
    pub fn count(&self) -> (u32, u32)
        ensures settled { result.0 ≡ settled_count self.now }
        ensures successes { result.1 ≡ success_count self.now }
    {
        (self.settled, self.successes)
    }

    /// Once all items are settled, whether enough of them succeeded: so many, or all.
    pub fn verdict(&self, min: Option<u32>) -> Option<bool>
        ensures pending { (result ≡ None) ↔ Contains self.now None }
        ensures enough { IfSome result (λ enough. IsTrue enough ↔ (minimum min self.now ≤ success_count self.now)) }
    {
        let count = self.ends.len() as u32;
        if self.settled < count {
            return None;
        }
        Some(min.unwrap_or(count) <= self.successes)
    }
}
