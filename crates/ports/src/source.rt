// Where bytes come from.
ghost use Rattle.std.specs.Prelude.{◌≡◌, ℕ, ◌≤◌, List, Option, length, IfOk, OnErr};
ghost use Rattle.ports.specs.Faults.{HasCause};
ghost use Rattle.ports.specs.Told.{AsTold};
ghost use Rattle.ports.specs.Source.{Moved};

use crate::Failed;

pub trait Source {
    /// The bytes left, where the source tells them.
    ghost left: { Self → Option (List ℕ) };

    /// How often a read has failed.
    ghost faults: { Self → ℕ };

    /// Moves bytes that are left into the front of `into`, and answers how many. `Ok(0)` for an `into` that is not empty
    /// says that nothing is left. After `Failed` as much is left as before.
    fn read(&mut self, into: &mut [u8]) -> Result<usize, Failed>
        ensures within { IfOk result (λ count. count ≤ length into.new) }
        ensures moved { IfOk result (λ count. AsTold (Moved count into.new) (left self.old) (left self.new)) }
        ensures kept { OnErr result (left self.new ≡ left self.old) }
        ensures cause { HasCause (faults self.old) (faults self.new) result };
}
