//! The head of a graph device.
ghost use Rattle.std.specs.Prelude.{◌≡◌, ◌≤◌};
ghost use Rattle.graph_model.specs.Jobs.{IsWellFormedJob};
ghost use Rattle.store_model.specs.Heads;
ghost use Rattle.store_model.specs.Heads.{front};

use graph_model::{Job, Program};

/// All but the mark of the head of an engine's graph device, with a closed gate.
#[tactic(auto, unfolding(store_model::specs::Heads::front))]
pub(crate) fn front_of(job: &Job, engine: u32) -> [u8; 64]
    requires job { IsWellFormedJob job.now }
    requires engine { engine ≤ 8 }
    ensures { result ≡ front 0 job.now engine }
{
    let mut bytes = [0; 64];
    bytes[1] = job.format as u8;
    bytes[2] = job.engines as u8;
    bytes[3] = engine as u8;
    bytes[4] = program_number(job.program);
    if job.format == 2 {
        bytes[6..8].copy_from_slice(&(job.keep as u16).to_be_bytes());
    }
    bytes[8..16].copy_from_slice(&u64::from(argument(job.program)).to_be_bytes());
    bytes[16..24].copy_from_slice(&u64::from(job.vertices).to_be_bytes());
    bytes[24..32].copy_from_slice(&u64::from(job.most).to_be_bytes());
    bytes[32..40].copy_from_slice(&u64::from(job.chunk).to_be_bytes());
    bytes[40..48].copy_from_slice(&job.seed.to_be_bytes());
    bytes[48..56].copy_from_slice(&u64::from(job.alpha).to_be_bytes());
    bytes[56..].copy_from_slice(&u64::from(job.limit).to_be_bytes());
    bytes
}

fn program_number(program: Program) -> u8
    ensures { result ≡ Heads.program_number program }
{
    match program {
        Program::Bfs(_) => 0,
        Program::Labels => 1,
        Program::Sssp(_) => 2,
        Program::Degrees => 3,
        Program::PageRank(_) => 4,
    }
}

fn argument(program: Program) -> u32
    ensures { result ≡ Heads.argument program }
{
    match program {
        Program::Bfs(root) | Program::Sssp(root) => root,
        Program::Labels | Program::Degrees => 0,
        Program::PageRank(rounds) => rounds,
    }
}
