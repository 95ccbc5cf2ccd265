// Where bytes go.
ghost use Rattle.std.specs.Prelude.{◌≡◌, ℕ, ◌<◌, ◌≤◌, List, Option, length, take, IfOk, IsOk, OnOk, OnErr};
ghost use Rattle.ports.specs.Faults.{HasCause};
ghost use Rattle.ports.specs.Told.{AsTold};
ghost use Rattle.ports.specs.Sink.{Appends, AppendsFront};

use crate::Failed;

pub trait Sink {
    /// The bytes written, where the sink tells them.
    ghost written: { Self → Option (List ℕ) };

    /// How often a write has failed.
    ghost faults: { Self → ℕ };

    /// Appends bytes of the front of `piece`, and answers how many: at least one, where `piece` is not empty. After
    /// `Failed` nothing was appended.
    fn write(&mut self, piece: &[u8]) -> Result<usize, Failed>
        ensures within { IfOk result (λ count. count ≤ length piece.now) }
        ensures some { 0 < length piece.now → IfOk result (λ count. 0 < count) }
        ensures empty { length piece.now ≡ 0 → IsOk result }
        ensures appended { IfOk result (λ count. AsTold (Appends (take count piece.now)) (written self.old) (written self.new)) }
        ensures kept { OnErr result (written self.new ≡ written self.old) }
        ensures cause { HasCause (faults self.old) (faults self.new) result };
}

/// Appends all of `piece`. After `Failed` a front of it was appended.
pub fn write_all<K: Sink>(out: &mut K, piece: &[u8]) -> Result<(), Failed>
    ensures whole { OnOk result (AsTold (Appends piece.now) (K.written out.old) (K.written out.new)) }
    ensures front { AsTold (AppendsFront piece.now) (K.written out.old) (K.written out.new) }
    ensures cause { HasCause (K.faults out.old) (K.faults out.new) result }
{
    let mut done = 0;
    while done < piece.len() {
        done += out.write(&piece[done..])?;
    }
    Ok(())
}
