//! The machine before the first event.
ghost use Rattle.std.specs.Prelude.{◌≡◌, ◌<◌, [], IfOk, OnOk, OnErr};
ghost use Rattle.graph_model.specs.declared.value.Update.{Update};
ghost use Rattle.partitioner.specs.Splits.{IsSplit};
ghost use Rattle.phase_core.specs.Machine.{fresh, with_chunk};
ghost use Rattle.phase_core.specs.View.{IsUnused, PutsAt, machine_of};

use crate::chunk::PutChunk;
use crate::state::Core;
use graph_model::Update;
use partitioner::Split;
use ports::Memory;
use std::alloc::Global;

impl Core {
    /// A machine without chunks: one worker for each engine, each helper count 1, and each sum the unit.
    pub fn new(alloc: Global, split: &Split, unit: u64) -> Result<Core, Memory>
        requires { IsSplit split.now }
        ensures { IfOk result (λ core. machine_of core ≡ fresh split.now unit []) }
    {
        let engines = split.engines as usize;
        let vertices = split.vertices as usize;
        Ok(Core {
            split: *split,
            unit,
            chunks: Vec::new(alloc),
            nexts: vec![in alloc; 0u64; 64 * engines]?,
            heads: vec![in alloc; 1u64; split.parts as usize]?,
            admitted: vec![in alloc; false; 64 * engines]?,
            refused: vec![in alloc; false; 512 * engines]?,
            finished: vec![in alloc; false; engines]?,
            sums: vec![in alloc; unit; vertices * engines]?,
        })
    }

    /// Puts a chunk behind those of the partition's cursor on the engine, before the first event. Each destination is
    /// in the partition. After `Memory` the machine is as before.
    pub fn put_chunk(
        &mut self,
        alloc: Global,
        engine: u32,
        partition: u32,
        updates: &[Update],
    ) -> Result<(), Memory>
        requires unused { IsUnused (machine_of self.old) }
        requires puts { PutsAt (machine_of self.old).split engine partition updates.now }
        ensures ok { OnOk result (machine_of self.new ≡ with_chunk (machine_of self.old) engine partition updates.now) }
        ensures err { OnErr result (machine_of self.new ≡ machine_of self.old) }
    {
        let updates = updates.to_vec(alloc)?;
        self.chunks.push(PutChunk {
            engine,
            partition,
            updates,
        })?;
        Ok(())
    }
}
