//! Laws on seats and duties. They stand on the contracts of functions that do nothing.
ghost use Rattle.std.specs.Prelude.{◌≡◌, ◌≢◌, ℕ, ◌≤◌, List, [], true, ◌++◌};
ghost use Rattle.chunk_object.specs.declared.call.Entry.{Entry};
ghost use Rattle.chunk_object.specs.History.{epoch_of};
ghost use Rattle.chunk_object.specs.Epochs.{Terms, first_entries, opens_of, greets_of, splits_of};
ghost use Rattle.chunk_object.specs.Duty.{BeginsDutiful};
ghost use Rattle.chunk_cursor.specs.declared.view.View.{View};
ghost use Rattle.worker_duty.specs.Views.{MayWork};

/// A seat that is split off in an epoch, behind the opening of each cursor and the greeting of each partition, may do all
/// that the duty asks.
pub fn seats_may_work()
    ensures { (terms : Terms) (lens : ℕ → ℕ) (past : List Entry) (before splits : ℕ) (v : View) → 1 ≤ terms.engines → terms.engines ≤ 8 → 1 ≤ terms.partitions → terms.partitions ≤ 64 → (epoch_of past).is_split ≡ true
        → v.serial ≢ 0 → v.story ≡ [] → v.held ≡ past ++ (first_entries (opens_of terms lens) ++ (first_entries (greets_of terms) ++ first_entries (splits_of before splits))) → MayWork terms lens v }
{}

/// A worker that was stopped before its first call has made a front of its duty.
pub fn no_call_begins_a_duty()
    ensures { (terms : Terms) (worker : ℕ) → terms.partitions ≤ 64 → BeginsDutiful terms worker [] }
{}
