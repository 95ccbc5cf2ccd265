// The buffers of printing.
ghost use Rattle.std.specs.Prelude.{IfOk};
ghost use Rattle.partitioner.specs.Splits.{IsSplit};

use crate::buffer::LineBuffer;
use graph_model::Value;
use partitioner::Split;
use ports::Memory;
use std::alloc::Global;

/// The bytes of a value.
pub(crate) const WIDTH: usize = 16;

/// All memory that printing takes: the lines that wait, and the values of one partition with their bytes.
#[derive(Drop)]
pub struct AnswerRoom {
    pub(crate) lines: LineBuffer,
    pub(crate) bytes: Vec<u8>,
    pub(crate) values: Vec<Value>,
}

impl AnswerRoom {
    ghost use Rattle.answer_lines.specs.Room.{IsRoom};

    /// The buffers for any partition of a split.
    pub fn new(alloc: Global, split: &Split) -> Result<AnswerRoom, Memory>
        requires { IsSplit split.now }
        ensures { IfOk result (IsRoom split.now) }
    {
        let span = split.span as usize;
        Ok(AnswerRoom {
            lines: LineBuffer::new(alloc)?,
            bytes: vec![in alloc; 0; WIDTH * span]?,
            values: vec![in alloc; Value { main: 0, side: 0 }; span]?,
        })
    }
}
