//! What a pile places.
ghost use Rattle.std.specs.Prelude.{◌≡◌, map};
ghost use Rattle.std.specs.List.{range_with_len};
ghost use Rattle.programs.specs.Parts.{body};
ghost use Rattle.piles.specs.Piled.{base_meaning, piled};
ghost use Rattle.piles.specs.Laws.{base_lawful, piled_lawful};

use super::pile::*;
use layers::exchange::exchanged_plan;
use layers::sparing::spared_plan;
use mapping::interface::*;
use mapping::placement::*;
use mapping::published::*;
use programs::threads::Thread;

// Two matches on enums, since a mapping and its layers are named by words when the program runs: closures or `dyn` values for them would have to be
// made from the words and handed out, which is refused. The layers are gone through by a `for`, which a `fold` would only write otherwise.

/// What a published mapping places at each place of a thread.
fn base_plan(base: Base, thread: &Thread) -> Plan
    ensures { result ≡ map (base_meaning base (body thread.now)) (range_with_len 0 8) }
{
    match base {
        Base::Trailing => Trailing.plan(thread),
        Base::Locked => Locked.plan(thread),
        Base::Leading => Leading.plan(thread),
    }
}

impl Mapping for Pile {
    ghost meaning = { λ p. piled (base_meaning p.base) p.layers.items };

    ghost fenced = { λ p. (piled_lawful p.layers.items (base_meaning p.base) (base_lawful p.base)).fenced };

    ghost ended = { λ p. (piled_lawful p.layers.items (base_meaning p.base) (base_lawful p.base)).ended };

    ghost stores = { λ p. (piled_lawful p.layers.items (base_meaning p.base) (base_lawful p.base)).stores };

    fn place(&self, thread: &Thread, at: usize) -> Placement {
        planned(&self.plan(thread), at)
    }

    fn plan(&self, thread: &Thread) -> Plan {
        let layers = self.layers.as_slice();
        let mut plan = base_plan(self.base, thread);
        for layer in layers {
            plan = match *layer {
                Layer::Sparing => spared_plan(thread, plan),
                Layer::Exchange => exchanged_plan(thread, plan),
            };
        }
        plan
    }
}
