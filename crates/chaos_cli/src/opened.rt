//! All that a call of the program is handed but its streams.
ghost use Rattle.std.specs.Prelude.{map, string_bytes, IfOk};
ghost use Rattle.job_words.specs.Commands.{command_of, engines_of};
ghost use Rattle.chaos_cli.specs.Files.{IsOpened};

use crate::devices::{make_meters, open_store};
use chunk_cursor::{CursorSeat, CursorTable};
use epoch_seats::new_seat_is_between_epochs;
use job_words::wanted;
use ports::Beat;
use real_devices::{CountMeter, FileDisk, OpenFault};
use std::alloc::Global;
use std::fs::File;
use std::rt::Files;
use store_reader::Store;

/// The files of a store, with what is made for one call.
#[derive(Drop)]
pub struct Opened<R: Files<File = File> + Clone + Drop + Send + Sync> {
    pub store: Store<FileDisk<R>>,
    pub meters: Vec<CountMeter<R>>,
    pub table: CursorTable,
    pub seat: CursorSeat,
    pub beat: Beat,
}

/// Opens the files of as many engines as the words want. Where the words are refused, there are none.
pub fn open_for<R: Files<File = File> + Clone + Drop + Send + Sync>(
    rt: &R,
    alloc: Global,
    words: &[String],
) -> Result<Opened<R>, OpenFault>
    ensures { IfOk result (IsOpened (engines_of (command_of (map string_bytes words.now)))) }
{
    let engines = match wanted(alloc, words) {
        Ok(engines) => engines,
        Err(_) => return Err(OpenFault::Memory),
    };
    let store = open_store(rt, alloc, engines)?;
    let meters = make_meters(rt, alloc, engines)?;
    let (table, seat) = match CursorTable::new(alloc) {
        Ok(made) => made,
        Err(_) => return Err(OpenFault::Memory),
    };
    new_seat_is_between_epochs();
    Ok(Opened {
        store,
        meters,
        table,
        seat,
        beat: Beat::new(),
    })
}
