//! The rows of a report: findings, each with what is told of it and the waiver that stands for it.
#![tactic(auto)]

ghost use Rattle.std.specs.Prelude.{◌≡◌, IfOk, map};
ghost use Rattle.desk_rows.specs.Rows.{unwaived, waived};

use demo_told::Told;
use desk_tables::{Day, WaiverId};
use rtl_rule::finding::Finding;
use std::alloc::Global;
use text_ground::memory::Memory;

/// A finding with what is told of it.
#[derive(Drop)]
pub struct Row {
    pub finding: Finding,
    pub told: Told,
}

/// A row with the waiver that stands for its finding, and the waiver's last day.
#[derive(Clone, Copy)]
pub struct WaivedRow<'r> {
    pub row: &'r Row,
    pub waiver: Option<(WaiverId, Day)>,
}

/// The rows where no waiver stands.
pub fn unwaived(alloc: Global, rows: &[Row]) -> Result<Vec<WaivedRow<'_>>, Memory>
    ensures { IfOk result (λ made. map waived made.items ≡ map unwaived rows.now) }
{
    let mut made = Vec::new(alloc);
    for row in rows {
        match made.push(WaivedRow { row, waiver: None }) {
            Ok(()) => {}
            Err(_) => return Err(Memory),
        }
    }
    Ok(made)
}
