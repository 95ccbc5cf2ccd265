//! The laws. Each stands on the contract of a function that does nothing.
ghost use Rattle.std.specs.Prelude.{◌≡◌, ℕ, ◌<◌, ◌≤◌, List, Some, length, slice_index_or, sum_by};
ghost use Rattle.std.specs.List.{range_with_len};
ghost use Rattle.graph_model.specs.declared.edge.Edge.{Edge};
ghost use Rattle.graph_model.specs.declared.job.Job.{Job};
ghost use Rattle.graph_model.specs.Jobs.{IsWellFormedJob, parts_of};
ghost use Rattle.graph_model.specs.Answer.{edges as edges_of, IsAccepted};
ghost use Rattle.graph_model.specs.Rounds.{IsWithinGraph};
ghost use Rattle.partitioner.specs.declared.split.Split.{Split};
ghost use Rattle.partitioner.specs.Splits.{IsSplitOf};
ghost use Rattle.chunk_object.specs.History.{most_chunks};
ghost use Rattle.chunk_file.specs.declared.index.Place.{Place};
ghost use Rattle.chunk_file.specs.declared.index.TheConstants.{MOST_PLACES};
ghost use Rattle.chunk_file.specs.Places.{places_of, total_of};
ghost use Rattle.store_model.specs.Graphs.{edge_chunks, chunks_on, graph};
ghost use Rattle.store_reader.specs.Indexed.{lens_of};
ghost use Rattle.storage_engine.specs.Making.{HasPlaces};
ghost use Rattle.store_checks.specs.Causes.{Tell};
ghost use Rattle.restart.specs.Recovering.{IsOpened};
ghost use Rattle.restart.specs.Storable.{IsStorable};
ghost use Rattle.round_steps.specs.Standing.{HaveEdges, HasEdges};

use ports::Disk;

/// Where each graph device tells exactly the content of a store of these edges, and the index has the places of their
/// chunks, these are the edges of the store for the rounds: each cursor has as many places as chunks, and the t-th chunk
/// stands at the t-th place.
pub fn edges_stand<D: Disk>()
    ensures { (job : Job) (edges : List Edge) → IsStorable job edges → (split : Split) → IsSplitOf job split →
        (index : List (List Place)) → HasPlaces job (edge_chunks job edges) index → (graphs : List D) → length graphs ≡ job.engines →
        ((e : ℕ) (d : D) → e < job.engines → (D.state (slice_index_or graphs e d)).bytes ≡ Some (graph job edges e)) →
        HasEdges D.state job split index graphs edges }
{}

/// After a recovery from devices that tell their bytes each chunk of the index stands on its device, whatever its records
/// are: also where the devices are the store of no edges.
pub fn found_chunks_stand<D: Disk>()
    ensures { (job : Job) → IsWellFormedJob job → (split : Split) → IsSplitOf job split → (graphs values : List (List ℕ)) (index : List (List Place)) → IsOpened graphs values job index →
        (devices : List D) → Tell D.state devices graphs → (records : ℕ → ℕ → List Edge) × HaveEdges D.state job split index devices records }
{}

/// The edges of a text that a job accepts may have a store of the second format, whose weights have room for all that a
/// text may say; and the edges of any text are within the graph.
pub fn accepted_text_is_storable()
    ensures storable { (job : Job) → IsWellFormedJob job → job.format ≡ 2 → (text : List ℕ) → IsAccepted job text → IsStorable job (edges_of job text) }
    ensures within { (job : Job) (text : List ℕ) → IsWithinGraph job.vertices (edges_of job text) }
{}

/// Where all places of an index are as few as a store may have, each cursor has room for its own.
pub fn index_is_few()
    ensures { (index : List (List Place)) → total_of index ≤ MOST_PLACES → (cursor : ℕ) → lens_of index cursor ≤ most_chunks }
{}

/// Where an index has the places of the chunks of these edges, an engine has as many places as chunks: over the partitions
/// of the job, and over as many more as an index has lists for.
pub fn places_are_counted()
    ensures { (job : Job) (edges : List Edge) → IsStorable job edges → (index : List (List Place)) → HasPlaces job (edge_chunks job edges) index →
        (parts : ℕ) → parts_of job ≤ parts → parts ≤ 64 → (e : ℕ) → e < 8 →
        sum_by (λ p. length (places_of index e p)) (range_with_len 0 parts) ≡ length (chunks_on job e (edge_chunks job edges)) }
{}
