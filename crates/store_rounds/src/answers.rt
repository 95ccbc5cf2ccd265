//! Laws on what is printed of the rounds that stand. They stand on the contract of a function that does nothing.
ghost use Rattle.std.specs.Prelude.{◌≡◌, ℕ, List, Option, length};
ghost use Rattle.graph_model.specs.declared.edge.Edge.{Edge};
ghost use Rattle.graph_model.specs.declared.job.Job.{Job};
ghost use Rattle.graph_model.specs.Jobs.{IsWellFormedJob};
ghost use Rattle.graph_model.specs.Programs.{rules_of, shows_side};
ghost use Rattle.graph_model.specs.Rounds.{IsLastRound, IsWithinGraph, values};
ghost use Rattle.store_model.specs.Slots.{slot_of};
ghost use Rattle.round_steps.specs.Going.{Tell};
ghost use Rattle.partitioner.specs.Splits.{split_for};
ghost use Rattle.round_loop.specs.Kept.{IsKept, IsRead};
ghost use Rattle.store_reader.specs.Values.{HoldValues};
ghost use Rattle.answer_lines.specs.Printing.{PrintsAll, PrintsFront};
ghost use Rattle.store_rounds.specs.Printed.{AnswerPrinted, FrontPrinted};

use ports::Disk;

/// A round that is kept is read of devices that tell their bytes; where a round is read its values stand in its slot for
/// who prints them; and where it is the last round, what was printed of it is the answer, or a front of it.
pub fn kept_is_the_answer<D: Disk>()
    ensures read { (job : Job) (edges : List Edge) (round : ℕ) (devices : List D) → length devices ≡ job.engines
        → Tell D.state devices → IsKept (rules_of job.program) job edges D.state round devices → IsRead (rules_of job.program) job edges D.state round devices }
    ensures held { (job : Job) (edges : List Edge) (round : ℕ) (devices : List D) → IsWellFormedJob job → IsWithinGraph job.vertices edges → length devices ≡ job.engines
        → IsRead (rules_of job.program) job edges D.state round devices
        → HoldValues D.state (split_for job) devices (slot_of round) (values (rules_of job.program) job.vertices edges round) }
    ensures whole { (job : Job) (edges : List Edge) (round : ℕ) (devices : List D) (old new : Option (List ℕ)) → IsWellFormedJob job → IsWithinGraph job.vertices edges → length devices ≡ job.engines
        → IsRead (rules_of job.program) job edges D.state round devices → IsLastRound (rules_of job.program) job.vertices edges job.limit round
        → PrintsAll D.state (split_for job) devices (slot_of round) (shows_side job.program) old new → AnswerPrinted job edges old new }
    ensures front { (job : Job) (edges : List Edge) (round : ℕ) (devices : List D) (old new : Option (List ℕ)) → IsWellFormedJob job → IsWithinGraph job.vertices edges → length devices ≡ job.engines
        → IsRead (rules_of job.program) job edges D.state round devices → IsLastRound (rules_of job.program) job.vertices edges job.limit round
        → PrintsFront D.state (split_for job) devices (slot_of round) (shows_side job.program) old new → FrontPrinted job edges old new }
{}
