//! Making and destructuring boxes, owners and guards, for implementers of a storage. Users of boxes don't
//! need it, and `generational_box` doesn't export it.

pub use crate::borrow::Borrow;
pub use crate::boxes::{box_at, id_at, pointer_at};
pub use crate::owner::{number_of, owner_at, place_of};
pub use crate::references::{id_read, into_reader, into_writer, reader_at, writer_at};
