// A transcript looked through: record by record, byte by byte, up to its first bad record, from its start or on from a record that was
// begun before. Document 02, requests (ii), (vii) and (xii). The reader of transcripts, that of deliveries and their salvage all stand on
// it. What a transcript means is crate `transcript_spec`.
#![tactic(auto)]

mod filling;
mod scanning;
mod steps;

pub use filling::fill_on;
pub use scanning::{Scanned, ScannedOn, scan, scan_on};
pub use steps::{cut_off, fresh_part, take_byte};
