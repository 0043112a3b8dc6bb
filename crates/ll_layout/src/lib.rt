//! Which bytes of a rendition's items are kept in its channel's spool, and where: a function of the items alone.
#![tactic(auto)]

mod bytes;
mod fault;
mod layout;
mod moves;
mod side;
mod stored;

pub use bytes::media_of;
pub use fault::AddFault;
pub use layout::Layout;
pub use side::Side;
pub use stored::{Extent, StoredItem, StoredSection};
