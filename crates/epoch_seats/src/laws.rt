//! Laws on seats and epochs. They stand on the contracts of functions that do nothing.
ghost use Rattle.std.specs.Prelude.{ℕ, ◌≤◌, List};
ghost use Rattle.chunk_object.specs.declared.call.Call.{Call};
ghost use Rattle.chunk_object.specs.Epochs.{Terms, Epoch, TakesEachOnce};
ghost use Rattle.chunk_object.specs.Duty.{MeetsDuty};
ghost use Rattle.chunk_cursor.specs.declared.view.View.{View};
ghost use Rattle.chunk_cursor.specs.View.{newcomer, with_calls};
ghost use Rattle.epoch_seats.specs.Between.{IsBetweenEpochs, HasEnded};
ghost use Rattle.epoch_seats.specs.Seats.{IsSeatOf};

/// The first seat of a new table is ready for an epoch.
pub fn new_seat_is_between_epochs()
    ensures { IsBetweenEpochs newcomer }
{}

/// The calls that a worker's seat makes are its own.
pub fn seats_keep_to_their_own_calls()
    ensures { (before worker : ℕ) (v : View) (calls : List Call) → IsSeatOf before worker v → IsSeatOf before worker (with_calls v calls) }
{}

/// In an epoch that has ended, and in which each worker's list meets its duty, each chunk was taken exactly once.
pub fn dutiful_epoch_is_taken_once()
    ensures { (terms : Terms) → terms.partitions ≤ 64 → (before after : View) (epoch : Epoch) → HasEnded terms before after epoch → MeetsDuty terms epoch → TakesEachOnce terms epoch }
{}
