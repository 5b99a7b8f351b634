//! Reads under way: one table of records, with the positions of the tags that all reads serve in a row beside it. The records are lent as a
//! slice to what counts, adds up and packs them; at a merge the record of the first covered read grows in place, and the other covered ones
//! are left out. Callers see a list of reads.
#![tactic(auto)]

mod cover;
mod extent;
mod marks;
mod merge;
mod pack;
mod read;
mod row;
mod table;

pub use cover::Covered;
pub use extent::{Extent, wider};
pub use marks::mark;
pub use row::{GroupRead, Read};
pub use table::Reads;
