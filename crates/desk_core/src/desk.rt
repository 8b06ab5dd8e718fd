// The desk.

use design_db::Db;
use desk_records::Records;
use std::alloc::Global;
use std::marker::Model;

/// What the desk keeps, and its files with what they said of modules. The files are those of its
/// tables, and each reply that is kept is to what was accepted.
#[derive(Drop)]
pub struct Desk {
    pub(crate) alloc: Global,
    pub(crate) records: Records,
    pub(crate) db: Db,
}

impl Model for Desk {
    ghost use Rattle.desk_core.specs.Machine.{IsMachine, Machine};

    ghost Value = { Machine };

    ghost use Rattle.rtl_tree.specs.contracts.tree.modules.Module as written;
    ghost use Rattle.std.specs.Coded.{codes};

    ghost coded = { Prim.hlevel (codes, written.the_row.coded) };

    ghost view = { λ desk. record { kept = desk.records; store = desk.db } };

    ghost invariant = { λ desk. IsMachine (record { kept = desk.records; store = desk.db }) };
}
