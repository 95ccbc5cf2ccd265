//! A store on devices: how it is made from the text that is left in a source, and, by the names of `store_reader`, how it
//! is read and serves its chunks.
//!
//! To the room above it promises that a store which `prepare` makes is exactly that of the job and the text, that a stop
//! while it is made leaves a graph device that is not open, or whole ones, that each refusal has its cause, that every
//! fault has raised its count, and that none rose where a store was made. It knows the ports, the reader of edge texts,
//! files of chunks, the places of chunks and the definitions of stores, and touches nothing but the source and the devices
//! that it is handed.
#![tactic(auto)]

mod begin;
mod device_steps;
mod each_device;
mod fault;
mod head;
mod maker;
mod preparing;
mod text;
mod waiting;
mod writing;

pub use fault::PrepareFault;
pub use preparing::prepare;
pub use store_reader::{
    Outcome, Part, Served, Serving, Shelf, SlotHead, Store, all_open, read_set, serve, slot_head,
};
pub use text::text_limit;
