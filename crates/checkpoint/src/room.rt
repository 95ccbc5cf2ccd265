// The buffers of apply.
ghost use Rattle.std.specs.Prelude.{IfOk};
ghost use Rattle.partitioner.specs.Splits.{IsSplit};

use crate::bytes::WIDTH;
use graph_model::Value;
use partitioner::Split;
use ports::Memory;
use std::alloc::Global;

/// The buffers of an engine in apply: for each vertex of a partition its bytes, its sum and its value.
#[derive(Drop)]
pub struct ApplyRoom {
    pub(crate) bytes: Vec<u8>,
    pub(crate) sums: Vec<u64>,
    pub(crate) values: Vec<Value>,
}

impl ApplyRoom {
    ghost use Rattle.checkpoint.specs.Room.{IsRoomOf};

    /// The buffers for a split.
    pub fn new(alloc: Global, split: &Split) -> Result<ApplyRoom, Memory>
        requires { IsSplit split.now }
        ensures { IfOk result (IsRoomOf split.now) }
    {
        let span = split.span as usize;
        Ok(ApplyRoom {
            bytes: vec![in alloc; 0; WIDTH * (span + 1)]?,
            sums: vec![in alloc; 0; span]?,
            values: vec![in alloc; Value { main: 0, side: 0 }; span]?,
        })
    }
}
