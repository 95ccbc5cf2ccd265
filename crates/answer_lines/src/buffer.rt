// Lines on their way to a sink.
ghost use Rattle.std.specs.Prelude.{◌≡◌, ℕ, ◌+◌, ◌≤◌, List, [], ◌++◌, length, take, IfOk, OnOk, OnErr};
ghost use Rattle.ports.specs.Faults.{HasCause};
ghost use Rattle.ports.specs.Sink.{Appends, AppendsFront};
ghost use Rattle.ports.specs.Told.{AsTold};
ghost use Rattle.answer_lines.specs.Lines.{Passes};

use ports::{Failed, Memory, Sink, write_all};
use std::alloc::Global;
use std::marker::Model;

/// How many bytes wait at most.
const SIZE: usize = 65_536;

/// Bytes that wait to be written, so that a sink gets them in large pieces.
#[derive(Drop)]
pub(crate) struct LineBuffer {
    bytes: Vec<u8>,
    used: usize,
}

impl Model for LineBuffer {
    ghost Value = { List ℕ };

    ghost view = { λ b. take b.used b.bytes.items };

    ghost invariant = { λ b. (length b.bytes.items ≡ 65536) × (b.used ≤ 65536) };
}

impl LineBuffer {
    /// A buffer in which nothing waits.
    pub(crate) fn new(alloc: Global) -> Result<LineBuffer, Memory>
        ensures { IfOk result (λ buffer. buffer ≡ []) }
    {
        Ok(LineBuffer {
            bytes: vec![in alloc; 0; SIZE]?,
            used: 0,
        })
    }

    /// Forgets what waits.
    pub(crate) fn clear(&mut self)
        ensures { self.new ≡ [] }
    {
        self.used = 0;
    }

    /// Puts a line behind the bytes that wait; where it does not fit, these are written first.
    pub(crate) fn put<K: Sink>(&mut self, line: &[u8], out: &mut K) -> Result<(), Failed>
        requires { length line.now ≤ 64 }
        ensures passes { OnOk result (Passes line.now self.old self.new (K.written out.old) (K.written out.new)) }
        ensures front { OnErr result (AsTold (AppendsFront self.old) (K.written out.old) (K.written out.new)) }
        ensures cause { HasCause (K.faults out.old) (K.faults out.new) result }
    {
        if line.len() > SIZE - self.used {
            self.flush(out)?;
        }
        self.append(line);
        Ok(())
    }

    /// Puts a line that fits behind the bytes that wait.
    fn append(&mut self, line: &[u8])
        requires { length self.old + length line.now ≤ 65536 }
        ensures { self.new ≡ self.old ++ line.now }
    {
        let end = self.used + line.len();
        self.bytes[self.used..end].copy_from_slice(line);
        self.used = end;
    }

    /// Writes what waits.
    pub(crate) fn flush<K: Sink>(&mut self, out: &mut K) -> Result<(), Failed>
        ensures empty { self.new ≡ [] }
        ensures whole { OnOk result (AsTold (Appends self.old) (K.written out.old) (K.written out.new)) }
        ensures front { OnErr result (AsTold (AppendsFront self.old) (K.written out.old) (K.written out.new)) }
        ensures cause { HasCause (K.faults out.old) (K.faults out.new) result }
    {
        let used = self.used;
        self.used = 0;
        write_all(out, &self.bytes[..used])
    }
}
