//! A proposal of help.
ghost use Rattle.std.specs.Prelude.{◌≡◌, ◌<◌, ◌≤◌};
ghost use Rattle.chunk_cursor.specs.View.{MayAdmit};
ghost use Rattle.steal_policy.specs.Looks.{HasLooked};
ghost use Rattle.steal_policy.specs.Proposals.{Proposes};

use crate::cost::accepts;
use chunk_cursor::{Admit, CursorSeat, CursorTable};

/// What a proposal of help is about.
#[derive(Clone, Copy)]
pub struct Ask {
    /// How many engines there are, at most 8.
    pub engines: u32,
    /// The partition to help with, below 64.
    pub partition: u32,
    /// The bytes of the partition's vertices.
    pub set_bytes: u64,
    /// The bytes of a full chunk, at most 2^24.
    pub chunk_bytes: u64,
    /// The factor of the rule of cost, in percent.
    pub alpha: u32,
}

/// What a proposal of help answers.
#[derive(Clone, Copy, Debug, PartialEq, Eq)]
pub enum Proposal {
    /// The worker is counted as a helper.
    Admitted,
    /// The rule of cost refuses, with so many bytes unread and so many workers at the partition.
    Refused { unread: u64, heads: u64 },
    /// The rule accepts with `seen` workers at the partition, but at the admit there were `now`.
    Contended { seen: u64, now: u64 },
}

/// Proposes to help with a partition: looks at its cursor on each engine once, in order, reads its helper count, and
/// admits the seat's worker exactly where the rule of cost accepts.
pub fn propose(table: &CursorTable, seat: &mut CursorSeat, ask: &Ask) -> Proposal
    requires table { seat.old.table ≡ table.now }
    requires ranges { (ask.now.engines ≤ 8) × (ask.now.partition < 64) × (ask.now.chunk_bytes ≤ 16777216) }
    requires may { MayAdmit seat.old.view ask.now.partition }
    ensures table { seat.new.table ≡ seat.old.table }
    ensures proposal { Proposes ask.now seat.old.view seat.new.view result }
{
    let left = chunks_left(table, seat, ask);
    let unread = left * ask.chunk_bytes;
    let heads = table.heads(seat, ask.partition);
    if !accepts(ask.set_bytes, unread, heads, ask.alpha) {
        return Proposal::Refused { unread, heads };
    }
    match table.admit(seat, ask.partition, heads) {
        Admit::Admitted => Proposal::Admitted,
        Admit::Contended(now) => Proposal::Contended { seen: heads, now },
    }
}

/// The sum of one look at the partition's cursor on each engine.
fn chunks_left(table: &CursorTable, seat: &mut CursorSeat, ask: &Ask) -> u64
    requires table { seat.old.table ≡ table.now }
    requires ranges { (ask.now.engines ≤ 8) × (ask.now.partition < 64) }
    requires may { MayAdmit seat.old.view ask.now.partition }
    ensures table { seat.new.table ≡ seat.old.table }
    ensures looks { HasLooked ask.now.partition ask.now.engines seat.old.view seat.new.view result }
{
    let mut left = 0;
    for engine in 0..ask.engines {
        left += table.look(seat, 64 * engine + ask.partition);
    }
    left
}
