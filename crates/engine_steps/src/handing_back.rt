// What is read of the books, and how an engine is taken apart.
ghost use Rattle.std.specs.Prelude.{◌≡◌, ◌<◌, map};
ghost use Rattle.history_files.specs.Boxes.{AreBoxes};
ghost use Rattle.history_files.specs.Effects.{effects};
ghost use Rattle.history_files.specs.Standing.{EachFits};
ghost use Rattle.engine_steps.specs.Engines.{full_history};
ghost use Rattle.engine_steps.specs.declared.engines.Phase.TheVariants as phase;

use crate::Engine;
use history_files::Parts;
use process_disk::Rack;
use resource_box::Resource;
use subsystem_store::Effect;

impl<R: Rack + Drop, B: Resource> Engine<R, B> {
    /// The committed effects of a subsystem in order. While nothing is under way these are the effects of the history.
    pub fn book(&self, q: u8) -> &[Effect]
        requires { q < 8 }
        ensures { self.now.phase ≡ phase.Settled → result.now ≡ effects self.now.catalog.ops (full_history self.now.core) q }
    {
        self.files.soundness_holds();
        self.files.book(q)
    }

    /// The rack, and the boxes with the values of their books. It takes no memory.
    pub fn into_parts(self) -> Parts<R, B>
        requires fits { EachFits B.Resource self.files.stores }
        ensures rack { result.rack ≡ self.files.rack }
        ensures boxes { result.resources.items ≡ map (λ s. s.resource) self.files.stores }
        ensures kinds { AreBoxes B.sort result.resources.items }
    {
        self.files.into_parts()
    }
}
