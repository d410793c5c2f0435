// The image of a device record: 128 bytes, each field at its place, for whoever keeps a chip as bytes (D94). No bool or enum
// is ever read from foreign memory: a flag is a byte that is 0 or 1, and is looked at before use.
#![tactic(auto)]

pub mod fields;
pub mod reads;
pub mod shapes;
pub mod writes;

pub use fields::{Field, IMAGE, Place, offset_of, place_of, size_of};
pub use reads::{eight_at, record_of};
pub use shapes::shaped;
pub use writes::put_record;
