//! Laws on a store that is made of a text and on the run that follows. They stand on the contract of a function that does
//! nothing.
ghost use Rattle.std.specs.Prelude.{◌≡◌, ◌⊎◌, ℕ, ◌+◌, ◌<◌, ◌≤◌, List, Option, Some, length, map};
ghost use Rattle.graph_model.specs.declared.job.Job.{Job};
ghost use Rattle.graph_model.specs.Answer.{edges};
ghost use Rattle.ports.specs.Stops.{IsStop};
ghost use Rattle.store_model.specs.Kept.{IsUnprepared, IsWholeStore};
ghost use Rattle.store_rounds.specs.Going.{LeaveRounds};
ghost use Rattle.store_rounds.specs.Making.{LeaveMade, IsShutSomewhere, IsMadeStore};

use ports::Disk;

/// Where some graph device was not open, what a stop leaves while a store is made, and while the job's rounds are then made
/// from the beginning, is not prepared, or from the beat in which the gates are opened on it is the whole store; and in
/// every later beat it is the whole store.
pub fn made_is_of_a_store<D: Disk>()
    ensures making { (job : Job) (source : Option (List ℕ)) (text : List ℕ) (number now b : ℕ) (graphs graphs_made values made : List D) (stopped_graphs stopped : List (List ℕ)) → source ≡ Some text
        → length graphs ≡ job.engines → length values ≡ job.engines → IsShutSomewhere D.state job graphs → LeaveMade D.state job source number now graphs graphs_made values made → b ≤ now
        → IsStop b (map D.state graphs) (map D.state graphs_made) stopped_graphs → IsStop b (map D.state values) (map D.state made) stopped
        → IsUnprepared stopped_graphs ⊎ ((number + 1 ≤ b) × IsWholeStore job (edges job text) stopped_graphs stopped) }
    ensures running { (job : Job) (source : Option (List ℕ)) (text : List ℕ) (number now last b : ℕ) (graphs graphs_made values made new : List D) (stopped_graphs stopped : List (List ℕ)) → source ≡ Some text
        → length graphs ≡ job.engines → length values ≡ job.engines → IsShutSomewhere D.state job graphs → LeaveMade D.state job source number now graphs graphs_made values made
        → IsMadeStore D.state job (edges job text) now graphs_made made → LeaveRounds D.state job (edges job text) now 0 last made new → now ≤ last → b ≤ now
        → IsStop b (map D.state graphs) (map D.state graphs_made) stopped_graphs → IsStop b (map D.state values) (map D.state new) stopped
        → IsUnprepared stopped_graphs ⊎ ((number + 1 ≤ b) × IsWholeStore job (edges job text) stopped_graphs stopped) }
    ensures later { (job : Job) (source : Option (List ℕ)) (text : List ℕ) (number now last b : ℕ) (graphs graphs_made values made new : List D) (stopped_graphs stopped : List (List ℕ)) → source ≡ Some text
        → length graphs ≡ job.engines → length values ≡ job.engines → LeaveMade D.state job source number now graphs graphs_made values made
        → IsMadeStore D.state job (edges job text) now graphs_made made → LeaveRounds D.state job (edges job text) now 0 last made new → b ≤ last → now < b
        → IsStop b (map D.state graphs) (map D.state graphs_made) stopped_graphs → IsStop b (map D.state values) (map D.state new) stopped
        → IsWholeStore job (edges job text) stopped_graphs stopped }
{}
