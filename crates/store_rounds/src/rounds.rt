//! Laws on the rounds that stand on the values devices. Each stands on the contract of a function that does nothing.
ghost use Rattle.std.specs.Prelude.{◌≡◌, ◌↔◌, ℕ, ◌^◌, ◌<◌, ◌≤◌, List, length};
ghost use Rattle.graph_model.specs.declared.edge.Edge.{Edge};
ghost use Rattle.graph_model.specs.declared.job.Job.{Job};
ghost use Rattle.graph_model.specs.Jobs.{IsWellFormedJob};
ghost use Rattle.graph_model.specs.Programs.{rules_of};
ghost use Rattle.store_model.specs.Kept.{IsReached, HasRound, IsValuesOf, IsEverywhere};
ghost use Rattle.store_checks.specs.Causes.{Tell};
ghost use Rattle.restart.specs.declared.recovering.Recovered.{Recovered};
ghost use Rattle.restart.specs.Resuming.{Resumes};
ghost use Rattle.round_loop.specs.declared.run.Start.{Start};
ghost use Rattle.round_loop.specs.declared.run.Start.TheVariants.{Fresh, At};
ghost use Rattle.round_loop.specs.Starts as run;
ghost use Rattle.round_loop.specs.Kept.{Holds, IsKept, IsRead, IsGoodStart, StandsAfter};
ghost use Rattle.store_rounds.specs.Images.{HaveImages, AreSettledAs};
ghost use Rattle.store_rounds.specs.Going.{start_of};

use ports::Disk;

/// A round of a job, as a store says it, is one that a run may come to, and it stands on the values device of an engine
/// by the same bytes; what stands on a values device of the store as a round is a round of the job.
pub fn rounds_are_the_same()
    ensures reached { (job : Job) (edges : List Edge) (round : ℕ) → IsReached job edges round ↔ run.IsReached (rules_of job.program) job.vertices edges job.limit round }
    ensures stands { (job : Job) (edges : List Edge) (e round : ℕ) (bytes : List ℕ) → HasRound job edges e bytes round ↔ (IsReached job edges round × Holds (rules_of job.program) job edges round e bytes) }
    ensures known { (job : Job) (edges : List Edge) (e round : ℕ) (bytes : List ℕ) → IsWellFormedJob job → round < 2 ^ 64
        → IsValuesOf job edges e bytes → Holds (rules_of job.program) job edges round e bytes → HasRound job edges e bytes round }
{}

/// A round that a run keeps, or that is read of all values devices, stands everywhere in the store: in whichever image
/// of each device is found, and in what they tell.
pub fn kept_is_everywhere<D: Disk>()
    ensures kept { (job : Job) (edges : List Edge) (round : ℕ) (devices : List D) (images : List (List ℕ)) → length devices ≡ job.engines
        → run.IsReached (rules_of job.program) job.vertices edges job.limit round → IsKept (rules_of job.program) job edges D.state round devices
        → HaveImages D.state devices images → IsEverywhere job edges images round }
    ensures read { (job : Job) (edges : List Edge) (round : ℕ) (devices : List D) (told : List (List ℕ)) → length devices ≡ job.engines
        → run.IsReached (rules_of job.program) job.vertices edges job.limit round → IsRead (rules_of job.program) job edges D.state round devices
        → Tell D.state devices told → IsEverywhere job edges told round }
{}

/// What is recovered of a store whose values devices tell these bytes is a good start of a run; and where no device has
/// another image, the round that was found stands in every image.
pub fn found_is_a_good_start<D: Disk>()
    ensures good { (job : Job) (edges : List Edge) (devices : List D) (told : List (List ℕ)) (found : Recovered) → IsWellFormedJob job → length devices ≡ job.engines
        → Tell D.state devices told → Resumes job edges told found → IsGoodStart (rules_of job.program) job edges D.state (start_of found) devices }
    ensures settled { (job : Job) (edges : List Edge) (devices : List D) (told : List (List ℕ)) (found : Recovered) (round changed : ℕ) → length devices ≡ job.engines
        → AreSettledAs D.state devices told → Resumes job edges told found → start_of found ≡ At round changed → IsKept (rules_of job.program) job edges D.state round devices }
{}

/// A round that stands after a run is read; and it is kept, in every image, where the run began at the beginning, or at an
/// earlier or the same round that was kept.
pub fn stands_is_kept<D: Disk>()
    ensures read { (job : Job) (edges : List Edge) (start : Start) (round : ℕ) (old new : List D) → StandsAfter (rules_of job.program) job edges D.state start round old new
        → IsRead (rules_of job.program) job edges D.state round new }
    ensures fresh { (job : Job) (edges : List Edge) (round : ℕ) (old new : List D) → StandsAfter (rules_of job.program) job edges D.state Fresh round old new
        → IsKept (rules_of job.program) job edges D.state round new }
    ensures found { (job : Job) (edges : List Edge) (found changed round : ℕ) (old new : List D) → IsKept (rules_of job.program) job edges D.state found old → found ≤ round
        → StandsAfter (rules_of job.program) job edges D.state (At found changed) round old new → IsKept (rules_of job.program) job edges D.state round new }
{}
