//! The real world behind the traits of `ports`: the trusted edge.
//!
//! Files are disks, a reader is a source and a writer a sink. It promises bounds, sizes, answers and counts of faults.
//! What a file or a stream gives or takes no contract can say, so nothing here tells its bytes. It touches the files and
//! folders whose paths it is given and the streams that it is handed, and nothing else.
#![tactic(auto)]

mod faults;
mod file;
mod folder;
mod meter;
mod stream;

pub use file::FileDisk;
pub use folder::{OpenFault, make_folder, sync_folder};
pub use meter::CountMeter;
pub use stream::{StreamSink, StreamSource};

#[cfg(test)]
mod tests;
