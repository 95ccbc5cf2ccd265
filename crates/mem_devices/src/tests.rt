// Values that no clause gives: those of hand-worked examples, and of a plain replay.
mod disks;
mod streams;
mod untold;
