//! Laws on what a stop leaves of a run. Each stands on the contract of a function that does nothing.
ghost use Rattle.std.specs.Prelude.{◌≡◌, ℕ, ◌+◌, ◌-◌, ◌^◌, ◌<◌, ◌≤◌, List, length, map, slice_index_or};
ghost use Rattle.graph_model.specs.declared.edge.Edge.{Edge};
ghost use Rattle.graph_model.specs.declared.job.Job.{Job};
ghost use Rattle.graph_model.specs.Jobs.{IsWellFormedJob};
ghost use Rattle.graph_model.specs.Programs.{rules_of};
ghost use Rattle.ports.specs.Disk.{InEveryImage};
ghost use Rattle.ports.specs.Stops.{AreImages, IsStop};
ghost use Rattle.store_model.specs.Slots.{IsBlank};
ghost use Rattle.store_model.specs.Kept.{own_of, device, HasRound, IsValuesOf, IsPrepared, IsWholeStore, StoreOf, IsEverywhere};
ghost use Rattle.store_checks.specs.Causes.{Tell};
ghost use Rattle.round_loop.specs.Kept.{HasStood, Left};
ghost use Rattle.store_rounds.specs.Images.{AreSettledAs};
ghost use Rattle.store_rounds.specs.Going.{LeaveRounds, LeaveRoundsSince};

use ports::Disk;

/// What a stop leaves of a values device while a run goes on is of the job's store, where each image was at the start;
/// and in the beat in which a round is made, the round before it is one of the store. So it is of all values devices at
/// one moment.
pub fn left_is_of_a_store<D: Disk>()
    ensures blank { (job : Job) (edges : List Edge) (e : ℕ) (bytes : List ℕ) → IsBlank (own_of job e) bytes → IsValuesOf job edges e bytes }
    ensures one { (job : Job) (edges : List Edge) (number first e b : ℕ) (start : D) (bytes : List ℕ) → InEveryImage (D.state start) (IsValuesOf job edges e)
        → Left (rules_of job.program) job edges number first e (D.state start) b bytes → IsValuesOf job edges e bytes }
    ensures before { (job : Job) (edges : List Edge) (number first e b round : ℕ) (start : D) (bytes : List ℕ) → IsWellFormedJob job → InEveryImage (D.state start) (IsValuesOf job edges e)
        → Left (rules_of job.program) job edges number first e (D.state start) b bytes → first ≤ round → 1 ≤ round → round ≤ 2 ^ 64 → b ≡ number + 1 + (round - first)
        → HasStood (rules_of job.program) job edges first (round - 1) e (D.state start) → HasRound job edges e bytes (round - 1) }
    ensures all { (job : Job) (edges : List Edge) (number first last b : ℕ) (old new : List D) (stopped : List (List ℕ)) → length old ≡ job.engines
        → ((e : ℕ) (d : D) → e < job.engines → InEveryImage (D.state (slice_index_or old e d)) (IsValuesOf job edges e))
        → LeaveRounds D.state job edges number first last old new → b ≤ last → IsStop b (map D.state old) (map D.state new) stopped
        → (length stopped ≡ job.engines) × ((e : ℕ) → e < job.engines → IsValuesOf job edges e (device stopped e)) }
{}

/// The graph devices of a whole store are open. Where all images of the graph devices and of the values devices together
/// are a store of a job, so is what a stop leaves of them while a run goes on, which touches no graph device.
pub fn stop_is_of_a_store<D: Disk>()
    ensures open { (job : Job) (edges : List Edge) (graphs values : List (List ℕ)) → IsWholeStore job edges graphs values → IsPrepared graphs }
    ensures stop { (job : Job) (edges : List Edge) (number first last b : ℕ) (graphs old new : List D) (told stopped_graphs stopped : List (List ℕ)) → Tell D.state old told
        → ((graph_images images : List (List ℕ)) → AreImages (map D.state graphs) graph_images → AreImages (map D.state old) images → StoreOf job edges graph_images images)
        → LeaveRounds D.state job edges number first last old new → b ≤ last
        → IsStop b (map D.state graphs) (map D.state graphs) stopped_graphs → IsStop b (map D.state old) (map D.state new) stopped → StoreOf job edges stopped_graphs stopped }
{}

/// Where no values device has an image but those that a round was found in, no stop of a run that goes on from this round
/// loses it: that round, or a later one, stands everywhere.
pub fn found_is_not_lost<D: Disk>()
    ensures { (job : Job) (edges : List Edge) (number round last b : ℕ) (old new : List D) (told stopped : List (List ℕ)) → IsWellFormedJob job → length old ≡ job.engines
        → AreSettledAs D.state old told → ((e : ℕ) → e < job.engines → IsValuesOf job edges e (device told e)) → IsEverywhere job edges told round
        → LeaveRounds D.state job edges number (round + 1) last old new → b ≤ last → last ≤ number + 2 ^ 63 → IsStop b (map D.state old) (map D.state new) stopped
        → (later : ℕ) × (round ≤ later) × IsEverywhere job edges stopped later }
{}

/// In the beat in which a run makes a round, the round before it stands everywhere after a stop, also where the stop is
/// counted from before the run: where the round before was made by this run, or stood in every image at its start.
pub fn made_is_not_lost<D: Disk>()
    ensures { (job : Job) (edges : List Edge) (number first last b round : ℕ) (early old new : List D) (stopped : List (List ℕ)) → IsWellFormedJob job → length early ≡ job.engines
        → ((e : ℕ) (d : D) → e < job.engines → InEveryImage (D.state (slice_index_or old e d)) (IsValuesOf job edges e))
        → ((e : ℕ) (d : D) → e < job.engines → (D.state (slice_index_or early e d)).moment ≤ (D.state (slice_index_or old e d)).moment)
        → ((e : ℕ) (d : D) → e < job.engines → HasStood (rules_of job.program) job edges first (round - 1) e (D.state (slice_index_or old e d)))
        → LeaveRoundsSince D.state job edges number first last old new → first ≤ round → 1 ≤ round → round ≤ 2 ^ 64 → b ≡ number + 1 + (round - first) → b ≤ last
        → IsStop b (map D.state early) (map D.state new) stopped → IsEverywhere job edges stopped (round - 1) }
{}
