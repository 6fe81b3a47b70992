//! The files of an office, each read: the roster or checkpoint, the networks and the names of places. Also why the program
//! stops, and what people are told then.
#![tactic(auto)]

mod file_system;
mod first_office;
mod notes;
mod places;
mod stop;
mod stopped;
mod told_file;
mod told_files;

pub use file_system::FileSystem;
pub use first_office::{OfficeFiles, read_files, read_roster};
pub use notes::{notes_not_written, open_notes};
pub use places::{read_names, read_places};
pub use stop::Stop;
pub use stopped::{Stopped, told_of_lines};
pub use told_file::{ToldFile, open, open_plain};
