//! Laws on the machine. Each stands on the contract of a function that does nothing.
ghost use Rattle.std.specs.Prelude.{◌≡◌, ℕ, List, [], ◌∷◌, All, true, fold};
ghost use Rattle.graph_model.specs.declared.value.Update.{Update};
ghost use Rattle.graph_model.specs.Programs.{Rules};
ghost use Rattle.graph_model.specs.Rounds.{merged};
ghost use Rattle.graph_model.specs.Partitions.{partition_of};
ghost use Rattle.partitioner.specs.declared.split.Split.{Split};
ghost use Rattle.partitioner.specs.Splits.{IsSplit};
ghost use Rattle.chunk_object.specs.declared.call.Call.{Call};
ghost use Rattle.chunk_object.specs.Object.{Answers, after};
ghost use Rattle.chunk_object.specs.History.{final};
ghost use Rattle.phase_model.specs.Shelves.{Shelf, records_at};
ghost use Rattle.phase_model.specs.Taken.{records_taken};
ghost use Rattle.phase_model.specs.Sums.{values_to};
ghost use Rattle.phase_core.specs.declared.event.Event.{Event};
ghost use Rattle.phase_core.specs.Machine.{Machine, fresh, is_timely, reply, stepped};
ghost use Rattle.phase_core.specs.Runs.{all_calls, calls_by, calls_of, event_of, is_workers, ran, reply_of};
ghost use Rattle.phase_core.specs.Sums.{AreSums, IsDrained, IsOfSplit, merged_at, updates_put};

use gather_laws::VertexProgram;

/// An event of the machine and a call of a seat are one step: what is replied is what the chunk object answers there,
/// the chunk object is afterwards as after that call, and a call that the chunk object answers, by a worker that may make
/// it, is the event's with the machine's reply.
pub fn events_are_calls()
    ensures answers { (m : Machine) (event : Event) → All (Answers m.object) (calls_of event (reply m event)) }
    ensures after { (rules : Rules) (m : Machine) (event : Event) → (stepped rules m event).object ≡ final after m.object (calls_of event (reply m event)) }
    ensures calls { (m : Machine) (worker : ℕ) (call : Call) → is_workers call ≡ true → Answers m.object call → is_timely m (event_of worker call) ≡ true →
        (reply m (event_of worker call) ≡ reply_of call) × (calls_of (event_of worker call) (reply_of call) ≡ call ∷ []) }
{}

/// After any events, the sum of each worker for a vertex is the fold of the updates in the chunks that the worker took.
/// The merge of the sums of all workers is the merge of the updates in all chunks that were taken, and, where the
/// vertex's partition has no chunk left, of all updates to it, in the order in which they were put.
pub fn merged_is_what_was_taken<P: VertexProgram>(program: &P)
    ensures own { (m : Machine) (events : List Event) (worker vertex : ℕ) →
        (ran (P.rules program.now) m events).sums worker vertex
        ≡ fold (P.rules program.now).fold (m.sums worker vertex) (values_to vertex (records_taken (records_at m.chunks) (calls_by worker (P.rules program.now) m events))) }
    ensures taken { (split : Split) (chunks : Shelf Update) (events : List Event) (vertex : ℕ) → AreSums (P.is_sum program.now) chunks →
        merged_at (P.rules program.now) (ran (P.rules program.now) (fresh split (P.rules program.now).unit chunks) events) vertex
        ≡ merged (P.rules program.now) (values_to vertex (records_taken (records_at chunks) (all_calls (P.rules program.now) (fresh split (P.rules program.now).unit chunks) events))) }
    ensures all { (split : Split) (chunks : Shelf Update) (events : List Event) (vertex : ℕ) → AreSums (P.is_sum program.now) chunks →
        IsSplit split → All (IsOfSplit split) chunks →
        IsDrained (ran (P.rules program.now) (fresh split (P.rules program.now).unit chunks) events) (partition_of split.vertices split.parts vertex) →
        merged_at (P.rules program.now) (ran (P.rules program.now) (fresh split (P.rules program.now).unit chunks) events) vertex
        ≡ merged (P.rules program.now) (values_to vertex (updates_put chunks)) }
{}
