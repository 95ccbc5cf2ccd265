//! The program: `chaos` over the three standard streams and the files of a folder.
//!
//! It hands the words of its command line to the top call, with a store whose devices are the files of the folder
//! `chaos_store` in the current one, and ends with the status that this answers. Nothing is computed here. It may touch the
//! three standard streams, that folder and the files in it, and nothing else.
#![tactic(auto)]

mod devices;
mod opened;

use chaos_top::chaos;
use endings::{Ending, tell};
use engine_gate::OpenGate;
use opened::open_for;
use ports::Sink;
use real_devices::{OpenFault, StreamSink, StreamSource};
use std::alloc::AllocError;
use std::env;
use std::io::ErrorKind;
use std::process::ExitCode;
use std::rt::Env;

fn main(rt: HostRuntime) -> ExitCode {
    let mut source = StreamSource::new(rt.stdin());
    let mut out = StreamSink::new(rt.stdout());
    let mut err = StreamSink::new(rt.stderr());
    let words = match words(&rt) {
        Ok(words) => words,
        Err(_) => return ExitCode::from(refuse(OpenFault::Memory, &mut err)),
    };
    let mut opened = match open_for(&rt, rt.alloc(), &words) {
        Ok(opened) => opened,
        Err(fault) => return ExitCode::from(refuse(fault, &mut err)),
    };
    let status = chaos(
        &rt,
        rt.alloc(),
        &words,
        &mut source,
        &mut out,
        &mut err,
        &mut opened.store,
        &mut opened.meters,
        &opened.table,
        &mut opened.seat,
        &OpenGate,
        &mut opened.beat,
    );
    ExitCode::from(status)
}

/// The words behind the program's name. Where one of them is no text, there is none, which the top call refuses.
fn words<R: Env + AllocGlobal>(rt: &R) -> Result<Vec<String>, AllocError> {
    match env::args(rt) {
        Ok(args) => args.skip(1).collect(rt.alloc()),
        Err(error) if error.kind() == ErrorKind::OutOfMemory => Err(AllocError),
        Err(_) => Ok(Vec::new(rt.alloc())),
    }
}

/// Tells that the files of a store cannot be had, and answers the status of that.
fn refuse<E: Sink>(fault: OpenFault, err: &mut E) -> u8 {
    let ending = match fault {
        OpenFault::Failed => Ending::DiskFault,
        OpenFault::Memory => Ending::Memory,
    };
    tell(&ending, false, err);
    ending.status()
}
