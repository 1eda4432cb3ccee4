// A boxed resource is a resource too.
use crate::{Call, Kind, Resource};
use std::alloc::AllocError;

impl Resource for Box<dyn Resource + Send> {
    ghost meaning = { λ b. (Resource-box b).meaning b.value };

    ghost sort = { λ b. (Resource-box b).sort b.value };

    fn kind(&self) -> Kind {
        (**self).kind()
    }

    fn look(&self, key: u32) -> i64 {
        (**self).look(key)
    }

    fn ready(&mut self, key: u32) -> Result<(), AllocError> {
        (**self).ready(key)
    }

    fn bars(&self, call: &Call) -> bool {
        (**self).bars(call)
    }

    fn apply(&mut self, call: &Call) -> i64 {
        (**self).apply(call)
    }

    fn revert(&mut self, call: &Call, before: i64) {
        (**self).revert(call, before);
    }

    fn clear(&mut self) {
        (**self).clear();
    }
}
