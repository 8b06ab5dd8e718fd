//! What the desk keeps: days, names, the rows of its tables, what a change does to them, and the keeper that has them.
#![tactic(auto)]

mod change;
mod day;
mod keeper;
mod name;
mod rows;
mod rules;
mod versions;

pub use change::Change;
pub use day::{Day, FIRST_DAY};
pub use keeper::{Keeper, KeeperFault, MemoryKeeper};
pub use name::Name;
pub use rows::{
    Digest, FileRow, Grade, MetaRow, ReplyRow, SignOffRow, Table, Tables, WaiverId, WaiverRow,
};
pub use rules::{
    MAX_ALL_BYTES, MAX_FILE_NAME_BYTES, MAX_FILES, MAX_REPLIES, MAX_SIGN_OFFS, MAX_WAIVERS, bad_row,
};
pub use versions::EDITION;
