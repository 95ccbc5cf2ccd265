//! The edges of a text, given to a maker.
ghost use Rattle.std.specs.Prelude.{◌≡◌, ◌≢◌, ◌+◌, ◌<◌, ◌≤◌, [], List, length, Err, OnOk, IfErr};
ghost use Rattle.std.specs.List.{All};
ghost use Rattle.graph_model.specs.declared.edge.Edge.{Edge};
ghost use Rattle.graph_model.specs.EdgeText;
ghost use Rattle.graph_model.specs.Programs;
ghost use Rattle.graph_model.specs.Jobs.{IsWellFormedJob};
ghost use Rattle.ports.specs.Faults.{Rose};
ghost use Rattle.ports.specs.Devices.{Each, OneRose, NoneRose};
ghost use Rattle.storage_engine.specs.Making.{AreFew, IsMaking};
ghost use Rattle.storage_engine.specs.Preparing;
ghost use Rattle.storage_engine.specs.Preparing.{HasReadAll, HasPrepareCause};
ghost use Rattle.storage_engine.specs.Steps.{Step, IsClosedFront};

use crate::fault::{MakeFault, PrepareFault};
use crate::maker::Maker;
use edge_reader::{EdgeReader, TextFault};
use graph_model::Program;
use ports::{Beat, Disk, Source};
use std::alloc::Global;

/// Gives all edges of the text that is left in the source to the maker, and reads the source to its end.
pub(crate) fn make_chunks<S: Source, D: Disk>(
    alloc: Global,
    source: &mut S,
    maker: &mut Maker,
    graphs: &mut [D],
    piece: &mut [u8],
    beat: &Beat,
) -> Result<(), PrepareFault>
    requires job { IsWellFormedJob maker.old.job }
    requires format { maker.old.job.format ≡ 2 }
    requires making { IsMaking D.state maker.old.job [] maker.old.buffers maker.old.placer maker.old.index graphs.old }
    requires room { 0 < length piece.old }
    requires beats { All (λ disk. (D.state disk).beat ≤ beat.now) graphs.old }
    ensures job { maker.new.job ≡ maker.old.job }
    ensures steps { Each D.state (Step IsClosedFront beat.now) graphs.old graphs.new }
    ensures made { OnOk result ((edges : List Edge) × HasReadAll maker.old.job (S.left source.old) (S.left source.new) edges
        × IsMaking D.state maker.old.job edges maker.new.buffers maker.new.placer maker.new.index graphs.new × AreFew maker.old.job edges) }
    ensures source { S.faults source.old ≤ S.faults source.new }
    ensures cause { IfErr result (HasPrepareCause maker.old.job (S.left source.old) (OneRose D.state graphs.old graphs.new) (Rose (S.faults source.old) (S.faults source.new))) }
    ensures calm { result ≢ Err PrepareFault.ReadFault → S.faults source.new ≡ S.faults source.old }
    ensures calm_devices { result ≢ Err PrepareFault.DiskFault → NoneRose D.state graphs.old graphs.new }
{
    let job = maker.job;
    let limit = text_limit(job.chunk);
    let mut reader = EdgeReader::new(job.vertices, takes_both_directions(job.program), limit);
    let mut edges = Vec::new(alloc);
    let mut taken = 0;
    'pieces: loop {
        let Ok(count) = source.read(piece) else {
            return Err(PrepareFault::ReadFault);
        };
        if count == 0 {
            break 'pieces;
        }
        edges.clear();
        if let Err(fault) = reader.feed(&piece[..count], &mut edges) {
            return Err(refused(fault));
        }
        if let Err(fault) = maker.add_all(graphs, &edges, beat) {
            return Err(stopped(fault));
        }
        taken += count as u64;
    }
    edges.clear();
    if let Err(fault) = reader.finish(&mut edges) {
        return Err(refused(fault));
    }
    if let Err(fault) = maker.add_all(graphs, &edges, beat) {
        return Err(stopped(fault));
    }
    Ok(())
}

fn takes_both_directions(program: Program) -> bool
    ensures { result ≡ Programs.takes_both_directions program }
{
    matches!(program, Program::Labels)
}

/// The most bytes that a text may have whose chunks have so many records.
pub fn text_limit(chunk: u32) -> u64
    ensures { result ≡ EdgeText.text_limit chunk }
{
    (1 << 40).min((1 << 31) * u64::from(chunk))
}

fn refused(fault: TextFault) -> PrepareFault
    ensures { result ≡ Preparing.refused fault }
{
    match fault {
        TextFault::BadLine(line) => PrepareFault::BadLine(line),
        TextFault::TooLong => PrepareFault::TooLong,
        TextFault::Memory => PrepareFault::Memory,
    }
}

pub(crate) fn stopped(fault: MakeFault) -> PrepareFault
    ensures { result ≡ Preparing.stopped fault }
{
    match fault {
        MakeFault::DiskFault => PrepareFault::DiskFault,
        MakeFault::Memory => PrepareFault::Memory,
    }
}
