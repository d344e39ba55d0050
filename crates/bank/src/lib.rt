// The bank selects of the TMS34094: document 02, request (vi). What the port to their registers and a decode mean, and the laws of that,
// are crate `bank_spec`; here is the code of the three calls. Lanes and kinds come as numbers, since any may be handed in, and is refused
// by number. Places and banks are numbers too, since document 02 counts with them.
#![tactic(auto)]

mod accessing;
mod decoding;
mod places;

pub use accessing::{read_bank_port, write_bank_port};
pub use decoding::decode;
