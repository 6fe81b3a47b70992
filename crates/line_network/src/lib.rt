//! The lines between places, their kilometres and minutes, read from a table in CSV; and the distance between each two places.
#![tactic(auto)]

mod distances;
mod gate;
mod laws;
mod length;
mod limits;
mod line;
mod line_field;
mod line_record;
mod lines_by_origin;
mod many_threads;
mod network;
mod networks;
mod networks_fault;
mod one_thread;
mod queue;
mod reading;
mod search;
mod share;
mod step;
mod turn;

pub use distances::Tables;
pub use faults::{NetworkFault, WorkFault};
pub use gate::{Gate, OpenGate};
pub use laws::{distance_is_unique, place_is_at_itself, triangle_holds};
pub use limits::{MAX_LINE_KM, MAX_LINE_MINUTES, MAX_LINE_RECORDS, MAX_PLACES};
pub use line::Line;
pub use line_field::{LineField, unfit_field};
pub use line_record::is_header as is_network_header;
pub use many_threads::{MAX_WORKERS, tables_by_workers};
pub use network::Network;
pub use networks::{MAX_NETWORKS, Networks};
pub use networks_fault::NetworksFault;
pub use one_thread::tables;
pub use reading::{read_lines, read_network};
