//! What the edges of a chunk send.
ghost use Rattle.std.specs.Prelude.{◌≡◌, ◌<◌, List, length, IfErr, OnOk, OnErr};
ghost use Rattle.std.specs.List.{All};
ghost use Rattle.graph_model.specs.declared.value.Value.{Value as ValueOf};
ghost use Rattle.graph_model.specs.Rounds.{differs};
ghost use Rattle.phase_model.specs.Sends.{sent_by};
ghost use Rattle.ports.specs.Devices.{OneRose, NoneRose};
ghost use Rattle.update_lanes.specs.Lanes.{AreReady};
ghost use Rattle.update_lanes.specs.Outgoing.{HasRoom, NoneFull, SendsOn, StopsOn};
ghost use Rattle.update_lanes.specs.Sending.{sending_all, sending_changed, IsFrom, AreChanges};

use crate::lanes::LaneFault;
use crate::outgoing::{Outgoing, put};
use gather_laws::VertexProgram;
use graph_model::{Edge, Update, Value};
use phase_model::Placed;
use ports::{Beat, Disk};

/// Sends along these edges from each of their sources, of which the vertices from `first` on have these values.
pub fn send_all<P: VertexProgram, D: Disk>(
    program: &P,
    edges: &[Edge],
    first: u32,
    now: &[Value],
    out: &mut Outgoing,
    lanes: &mut [D],
    places: &mut Vec<Placed>,
    beat: &Beat,
) -> Result<(), LaneFault>
    requires edges { All (IsFrom first (length now.now) out.old.split.vertices) edges.now }
    requires room { HasRoom out.old }
    requires open { NoneFull out.old.size out.old.buffers.items }
    requires lanes { AreReady D.state out.old.split.engines beat.now (length places.old.items) lanes.old }
    ensures sends { OnOk result (SendsOn D.state beat.now out.old out.new lanes.old lanes.new places.old.items places.new.items (sent_by (sending_all (P.rules program.now) first now.now) edges.now)) }
    ensures stops { OnErr result (StopsOn D.state beat.now out.old out.new lanes.old lanes.new places.old.items places.new.items (length edges.now)) }
    ensures cause { IfErr result (λ fault. fault ≡ LaneFault.DiskFault → OneRose D.state lanes.old lanes.new) }
    ensures calm { OnOk result (NoneRose D.state lanes.old lanes.new) }
{
    'edges: for edge in edges {
        let value = now[(edge.src - first) as usize];
        let Some(number) = program.send(value, edge.weight) else {
            continue;
        };
        let update = Update {
            dst: edge.dst,
            value: number,
        };
        put(out, lanes, places, update, beat)?;
    }
    Ok(())
}

/// The same from those sources alone whose value has changed, of which `changed` tells for each vertex.
pub fn send_changed<P: VertexProgram, D: Disk>(
    program: &P,
    edges: &[Edge],
    first: u32,
    now: &[Value],
    changed: &[bool],
    out: &mut Outgoing,
    lanes: &mut [D],
    places: &mut Vec<Placed>,
    beat: &Beat,
) -> Result<(), LaneFault>
    requires edges { All (IsFrom first (length now.now) out.old.split.vertices) edges.now }
    requires changed { length changed.now ≡ length now.now }
    requires room { HasRoom out.old }
    requires open { NoneFull out.old.size out.old.buffers.items }
    requires lanes { AreReady D.state out.old.split.engines beat.now (length places.old.items) lanes.old }
    ensures sends { (before : List ValueOf) → AreChanges before now.now changed.now
        → OnOk result (SendsOn D.state beat.now out.old out.new lanes.old lanes.new places.old.items places.new.items (sent_by (sending_changed (P.rules program.now) first before now.now) edges.now)) }
    ensures stops { OnErr result (StopsOn D.state beat.now out.old out.new lanes.old lanes.new places.old.items places.new.items (length edges.now)) }
    ensures cause { IfErr result (λ fault. fault ≡ LaneFault.DiskFault → OneRose D.state lanes.old lanes.new) }
    ensures calm { OnOk result (NoneRose D.state lanes.old lanes.new) }
{
    'edges: for edge in edges {
        let at = (edge.src - first) as usize;
        if !changed[at] {
            continue;
        }
        let Some(number) = program.send(now[at], edge.weight) else {
            continue;
        };
        let update = Update {
            dst: edge.dst,
            value: number,
        };
        put(out, lanes, places, update, beat)?;
    }
    Ok(())
}

/// Notes for each vertex whether its value is another one than before.
pub fn mark_changes(now: &[Value], before: &[Value], changed: &mut [bool])
    requires before { length before.now ≡ length now.now }
    requires changed { length changed.old ≡ length now.now }
    ensures { AreChanges before.now now.now changed.new }
{
    'vertices: for vertex in 0..now.len() {
        changed[vertex] = differ(now[vertex], before[vertex]);
    }
}

/// Whether two values are not the same.
#[inline(always)]
fn differ(a: Value, b: Value) -> bool
    ensures { result ≡ differs a b }
{
    !(a.main == b.main && a.side == b.side)
}
