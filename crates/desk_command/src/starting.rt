// What is answered where the desk doesn't start.
ghost use Rattle.std.specs.Prelude.{◌≡◌, ◌≢◌, ◌≤◌, ◌++◌, ℕ, Option, Err, codes, decimal, IfOk, OnOk, ◌<◌};
ghost use Rattle.desk_io.specs.Causes.{Rose};
ghost use Rattle.desk_tables.specs.Tables.{Kept};
ghost use Rattle.desk_records.specs.Machine.{table_name};
ghost use Rattle.desk_core.specs.Starting.{IsStart};
ghost use Rattle.desk_command.specs.Statuses.{UNKEPT, UNREAD, UNWRITTEN};
ghost use Rattle.desk_command.specs.Commands.{IsUnstarted, bad_tables, taken_between};

use crate::ending::{BAD_TABLES, UNKEPT, deliver};
use desk_core::StartFault;
use desk_io::Sink;
use desk_tables::Table;
use desk_top::deliver::NO_MEMORY;
use itoa::Buffer;
use std::alloc::Global;
use text_ground::memory::Memory;

// The name of a table, as lines on its rows have it.
fn table_name(table: Table) -> &'static [u8]
    ensures { result.now ≡ table_name table }
{
    match table {
        Table::Meta => b"meta",
        Table::Files => b"files",
        Table::Waivers => b"waivers",
        Table::SignOffs => b"signoffs",
        Table::Replies => b"replies",
    }
}

fn push(out: &mut Vec<u8>, bytes: &[u8]) -> Result<(), Memory>
    ensures { OnOk result (out.new.items ≡ out.old.items ++ bytes.now) }
{
    Ok(out.extend_from_slice(bytes)?)
}

// The line on a row that breaks a rule of its table.
fn bad_line(alloc: Global, table: Table, row: usize) -> Result<Vec<u8>, Memory>
    ensures { IfOk result (λ line. line.items ≡ (bad_tables table row).bytes) }
{
    let mut digits = Buffer::new();
    let mut line = Vec::new(alloc);
    push(&mut line, b"bad table ")?;
    push(&mut line, table_name(table))?;
    push(&mut line, b" row ")?;
    push(&mut line, digits.format(row as u64).as_bytes())?;
    push(&mut line, b"\n")?;
    Ok(line)
}

// Answers why the desk doesn't start, and writes the line on a row that breaks a rule.
pub(crate) fn refuse<S: Sink>(alloc: Global, fault: StartFault, out: &mut S) -> u8
    ensures refused { (told : Option Kept) (faults faults' : ℕ) → IsStart told (Err fault)
        → (fault ≡ StartFault.Keeper → Rose faults faults')
        → (fault ≢ StartFault.Keeper → faults' ≡ faults)
        → IsUnstarted told faults faults' result
        (taken_between (S.taken out.old) (S.taken out.new)) }
    ensures unwritten { result ≡ UNWRITTEN → Rose (S.faults out.old) (S.faults out.new) }
    ensures read { result ≢ UNREAD }
    ensures unkept { fault ≡ StartFault.Keeper → result ≡ UNKEPT }
    ensures failed { S.faults out.old < S.faults out.new → result ≡ UNWRITTEN }
    ensures later { S.faults out.old ≤ S.faults out.new }
{
    match fault {
        StartFault::Keeper => UNKEPT,
        StartFault::BadTables(table, row) => match bad_line(alloc, table, row) {
            Ok(line) => deliver(BAD_TABLES, &line, out),
            Err(Memory) => NO_MEMORY,
        },
        StartFault::Memory => NO_MEMORY,
    }
}
