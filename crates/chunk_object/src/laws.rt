//! Laws on histories. Each stands on the contract of a function that does nothing.
ghost use Rattle.std.specs.Prelude.{◌≡◌, ◌≢◌, ℕ, ◌<◌, ◌≤◌, List, ◌∷◌, ◌++◌};
ghost use Rattle.chunk_object.specs.declared.call.Call.TheVariants.{Split, Join};
ghost use Rattle.chunk_object.specs.declared.call.Entry.{Entry};
ghost use Rattle.chunk_object.specs.History.{IsOrdered, entries_of, IsCutAt, BeginsBehind, EndsBefore, times_taken, refusals, one_below, opened_len, StandsWhole};
ghost use Rattle.chunk_object.specs.Epochs.{Terms, Epoch, epoch_entries, MastersAreTold, TakesEachChunk, TakesEachOnce};
ghost use Rattle.chunk_object.specs.Duty.{MeetsDuty};

/// In a history of splits and joins all calls of a caller stand behind its split and before its join. The first
/// caller's own calls, splits and joins stand in its order, so what it held at a split stands before all calls of the
/// caller that was split off, and a list that came back stands before all that the first caller does later.
pub fn lists_keep_order()
    ensures split { (h : List Entry) → IsOrdered h → (before : List Entry) (e : Entry) (behind : List Entry) → entries_of 0 h ≡ before ++ e ∷ behind → (serial worker : ℕ) → serial ≢ 0 → e.call ≡ Split serial worker → (cut : IsCutAt h before e behind) × BeginsBehind serial cut }
    ensures join { (h : List Entry) → IsOrdered h → (before : List Entry) (e : Entry) (behind : List Entry) → entries_of 0 h ≡ before ++ e ∷ behind → (serial worker : ℕ) → serial ≢ 0 → e.call ≡ Join serial worker → (cut : IsCutAt h before e behind) × EndsBefore serial cut }
{}

/// Where somebody was told that a cursor has no chunk left, each of its chunks was taken exactly once since it was last
/// opened, and no other.
pub fn cursor_is_taken_once()
    ensures { (story : List Entry) → StandsWhole story → (cursor chunk : ℕ) → 0 < refusals cursor story → times_taken cursor chunk story ≡ one_below (opened_len cursor story) chunk }
{}

/// In an epoch in which each master was told at each engine that its partitions have no chunk left there, each chunk
/// of each cursor was taken exactly once.
pub fn epoch_is_taken_once()
    ensures { (story : List Entry) → StandsWhole story → (terms : Terms) (past : List Entry) (before : ℕ) (epoch : Epoch) → story ≡ past ++ epoch_entries terms before epoch → MastersAreTold terms epoch → TakesEachChunk terms epoch }
{}

/// In an epoch in which each worker's list meets its duty, each chunk of each cursor was taken exactly once, and no
/// other of any cursor.
pub fn duty_takes_each_chunk_once()
    ensures { (story : List Entry) → StandsWhole story → (terms : Terms) → terms.partitions ≤ 64 → (past : List Entry) (before : ℕ) (epoch : Epoch) → story ≡ past ++ epoch_entries terms before epoch → MeetsDuty terms epoch → TakesEachOnce terms epoch }
{}
