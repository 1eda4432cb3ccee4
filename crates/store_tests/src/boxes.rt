// A box is dropped once, with its store.
use crate::files::{must, rack_of, whole_file};
use resource_box::{Call, Counters, Kind, Resource};
use std::alloc::{AllocError, Global};
use std::process::Abort;
use std::sync::Arc;
use std::sync::atomic::{AtomicU32, Ordering};
use subsystem_store::Store;

// Counters that count how often they are dropped.
struct Counted {
    counters: Counters,
    drops: Arc<AtomicU32>,
}

impl Drop for Counted {
    fn drop(self) {
        let Counted { counters: _, drops } = self;
        let _ = drops.fetch_add(1, Ordering::Relaxed);
    }
}

impl Resource for Counted {
    ghost meaning = { λ c. ⟦<Counters as Resource>⟧.meaning c.counters };

    ghost sort = { λ c. ⟦<Counters as Resource>⟧.sort c.counters };

    fn kind(&self) -> Kind {
        self.counters.kind()
    }

    fn look(&self, key: u32) -> i64 {
        self.counters.look(key)
    }

    fn ready(&mut self, key: u32) -> Result<(), AllocError> {
        self.counters.ready(key)
    }

    fn bars(&self, call: &Call) -> bool {
        self.counters.bars(call)
    }

    fn apply(&mut self, call: &Call) -> i64 {
        self.counters.apply(call)
    }

    fn revert(&mut self, call: &Call, before: i64) {
        self.counters.revert(call, before);
    }

    fn clear(&mut self) {
        self.counters.clear();
    }
}

#[test]
fn a_box_is_dropped_once_with_its_store(rt: HostRuntime) {
    let alloc = rt.alloc();
    let drops = must(&rt, Arc::new(alloc, AtomicU32::new(0)));
    let mut rack = rack_of(&rt, alloc, whole_file());
    let counted = Counted {
        counters: Counters::new(alloc),
        drops: must(&rt, drops.clone()),
    };
    let resource = must(&rt, Box::new(alloc, counted)) as Box<dyn Resource + Send>;
    {
        let Ok(store) = Store::open(alloc, &mut rack, 1, resource) else {
            panic!(rt; "no store");
        };
        assert_eq!(rt; store.look(1), 5);
        assert_eq!(rt; drops.load(Ordering::Relaxed), 0);
    }
    assert_eq!(rt; drops.load(Ordering::Relaxed), 1);
}
