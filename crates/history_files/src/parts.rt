// What files are made of.
use resource_box::Resource;

/// A rack, and the boxes of eight subsystems in order.
#[derive(Drop)]
pub struct Parts<R: Drop, B: Drop = Box<dyn Resource + Send>> {
    pub rack: R,
    pub resources: Vec<B>,
}
