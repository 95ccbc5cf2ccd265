//! The laws. Each stands on the contract of a function that does nothing.
ghost use Rattle.std.specs.Prelude.{◌≡◌, ℕ, ◌-◌, ◌<◌, ◌≤◌, List, ◌++◌, Option, true, map};
ghost use Rattle.graph_model.specs.declared.edge.Edge.{Edge};
ghost use Rattle.graph_model.specs.declared.value.Value.{Value};
ghost use Rattle.graph_model.specs.declared.job.Job.{Job};
ghost use Rattle.graph_model.specs.Jobs.{IsWellFormedJob};
ghost use Rattle.graph_model.specs.Rounds.{IsWithinGraph, merged, of_vertices, out_degree, value_at, values};
ghost use Rattle.graph_model.specs.declared.value.Update.{Update};
ghost use Rattle.partitioner.specs.declared.split.Split.{Split};
ghost use Rattle.chunk_object.specs.declared.call.Entry.{Entry};
ghost use Rattle.chunk_object.specs.Object.{ChunkObject};
ghost use Rattle.chunk_object.specs.Duty.{MeetsDuty};
ghost use Rattle.chunk_object.specs.Epochs.{Terms, Epoch, TakesEachOnce, epoch_entries, list_of};
ghost use Rattle.chunk_object.specs.History.{StandsWhole};
ghost use Rattle.phase_model.specs.Shelves.{Shelf};
ghost use Rattle.phase_core.specs.Machine.{fresh};
ghost use Rattle.phase_core.specs.Runs.{ran, replies, reply_of};
ghost use Rattle.epoch_laws.specs.Turns.{EpochHistory, event_at};
ghost use Rattle.phase_model.specs.JobTerms.{terms_of};
ghost use Rattle.phase_model.specs.Sends.{sent_by};
ghost use Rattle.phase_model.specs.Sums.{values_to};
ghost use Rattle.epoch_laws.specs.Phases.{MaySend, Opens, counted, edge_shelf, gathered, merged_over, sending_in, updates_of};

use gather_laws::VertexProgram;

/// In a round whose scatter epoch takes each chunk of edges once, and whose gather epoch takes each update chunk of that
/// once, the merge of all workers' sums for a vertex is the merge of what the senders' edges send to it, whoever took
/// what; and the next values of that are the values of the round.
pub fn round_is_gathered<P: VertexProgram>(program: &P)
    ensures sums { (job : Job) (edges : List Edge) → IsWellFormedJob job → IsWithinGraph job.vertices edges →
        (round : ℕ) (before : Option (List Value)) (t : ℕ) (scatter gather : Epoch) →
        Opens (edge_shelf job edges) scatter → TakesEachOnce (terms_of job) scatter →
        Opens (updates_of job edges (sending_in (P.rules program.now) job.vertices edges round before) t scatter) gather → TakesEachOnce (terms_of job) gather →
        (vertex : ℕ) →
        merged_over (P.rules program.now) (gathered (P.rules program.now) (updates_of job edges (sending_in (P.rules program.now) job.vertices edges round before) t scatter) vertex) gather
        ≡ merged (P.rules program.now) (values_to vertex (sent_by (sending_in (P.rules program.now) job.vertices edges round before) edges)) }
    ensures next { (job : Job) (edges : List Edge) → IsWellFormedJob job → IsWithinGraph job.vertices edges →
        (round : ℕ) (before : Option (List Value)) → 1 ≤ round → MaySend (P.rules program.now) job.vertices edges round before → (t : ℕ) (scatter gather : Epoch) →
        Opens (edge_shelf job edges) scatter → TakesEachOnce (terms_of job) scatter →
        Opens (updates_of job edges (sending_in (P.rules program.now) job.vertices edges round before) t scatter) gather → TakesEachOnce (terms_of job) gather →
        values (P.rules program.now) job.vertices edges round
        ≡ of_vertices job.vertices (λ vertex. (P.rules program.now).next (value_at (values (P.rules program.now) job.vertices edges (round - 1)) vertex)
        (merged_over (P.rules program.now) (gathered (P.rules program.now) (updates_of job edges (sending_in (P.rules program.now) job.vertices edges round before) t scatter) vertex) gather)) }
{}

/// For a program that uses the number of edges, where a count epoch takes each chunk of edges once, the merge of all
/// workers' counts for a vertex is the number of edges out of it, capped, and the start values of that are the values of
/// round 0. For every other program they are that for any number.
pub fn edges_are_counted<P: VertexProgram>(program: &P)
    ensures counts { (job : Job) (edges : List Edge) → IsWellFormedJob job → IsWithinGraph job.vertices edges → (P.rules program.now).counts ≡ true →
        (count : Epoch) → Opens (edge_shelf job edges) count → TakesEachOnce (terms_of job) count →
        (vertex : ℕ) → merged_over (P.rules program.now) (counted (edge_shelf job edges) vertex) count ≡ out_degree edges vertex }
    ensures start { (vertices : ℕ) (edges : List Edge) (numbers : ℕ → ℕ) → ((P.rules program.now).counts ≡ true → (vertex : ℕ) → vertex < vertices → numbers vertex ≡ out_degree edges vertex) →
        values (P.rules program.now) vertices edges 0 ≡ of_vertices vertices (λ vertex. (P.rules program.now).start vertex (numbers vertex)) }
{}

/// In a story that stands whole and ends with an epoch in which each worker's list meets its duty, the workers' calls of
/// the epoch stand in one legal history, from an object whose cursors were opened and whose partitions were greeted.
pub fn epoch_has_history()
    ensures { (story : List Entry) → StandsWhole story → (terms : Terms) → 1 ≤ terms.engines → terms.engines ≤ 8 → 1 ≤ terms.partitions → terms.partitions ≤ 64 →
        (past : List Entry) (before : ℕ) (epoch : Epoch) → story ≡ past ++ epoch_entries terms before epoch → MeetsDuty terms epoch →
        (o : ChunkObject) × ((history : List Entry) × EpochHistory terms epoch o history) }
{}

/// In an epoch in which each worker's list meets its duty, the workers' calls in one legal history are events that the
/// pure machine, opened with the same chunks, answers alike, so none comes at the wrong time; and the machine's sums are
/// then those of each worker's own list.
pub fn calls_are_events<P: VertexProgram>(program: &P)
    ensures replies { (terms : Terms) (epoch : Epoch) → terms.partitions ≤ 64 → MeetsDuty terms epoch →
        (split : Split) → split.engines ≡ terms.engines → split.parts ≡ terms.partitions →
        (chunks : Shelf Update) → Opens chunks epoch → (o : ChunkObject) (history : List Entry) → EpochHistory terms epoch o history →
        replies (P.rules program.now) (fresh split (P.rules program.now).unit chunks) (map event_at history) ≡ map (λ (e : Entry). reply_of e.call) history }
    ensures sums { (terms : Terms) (epoch : Epoch) → terms.partitions ≤ 64 → MeetsDuty terms epoch →
        (split : Split) → split.engines ≡ terms.engines → split.parts ≡ terms.partitions →
        (chunks : Shelf Update) → Opens chunks epoch → (o : ChunkObject) (history : List Entry) → EpochHistory terms epoch o history →
        (worker vertex : ℕ) → worker < terms.engines →
        (ran (P.rules program.now) (fresh split (P.rules program.now).unit chunks) (map event_at history)).sums worker vertex
        ≡ gathered (P.rules program.now) chunks vertex (list_of epoch worker) }
{}
