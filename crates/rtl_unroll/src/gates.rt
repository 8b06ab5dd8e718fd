// What gates drive.

ghost use Rattle.std.specs.Prelude.{◌≡◌, ◌++◌, [], ◌∷◌, IfOk, None, map};
ghost use Rattle.std.specs.List.{flat_map};
ghost use Rattle.std.specs.Option.{option_map, option_to_list};
ghost use Rattle.rtl_tree.specs.TreeExpr.{formula, identifier};
ghost use Rattle.rtl_tree.specs.TreeGate.{gate, gate_pause};
ghost use Rattle.rtl_tree.specs.TreeItem.{gate_drive, module_item};
ghost use Rattle.rtl_tree.specs.TreeStmt.{Target, pause, target, target_place};
ghost use Rattle.rtl_unroll.specs.Gates.{driven, drives_of, gates_item, name_of, one_input, output_of, plain_pause, several_inputs};

use crate::inputs::{alone, together};
use rtl_tree::tree::expr::Expr;
use rtl_tree::tree::gate::{Gate, GateDelay, GateKind, GateTicks};
use rtl_tree::tree::item::{GateDrive, Item};
use rtl_tree::tree::names::Name;
use rtl_tree::tree::operators::BinaryOperator;
use rtl_tree::tree::stmt::{Delay, Lvalue, Ticks};
use std::alloc::Global;
use text_ground::memory::Memory;

/// The names of gates, and what they drive.
#[derive(Drop)]
struct Driving {
    pub names: Vec<Name>,
    pub drives: Vec<GateDrive>,
}

/// A name, or a select of one, as an output.
fn output_of(terminal: Expr) -> Option<Lvalue>
    ensures { option_to_list (option_map target result) ≡ output_of (formula terminal) }
{
    match terminal {
        Expr::Read(name) => Some(Lvalue::Whole(name)),
        Expr::ReadBit(name, index) => Some(Lvalue::Bit(name, Box::into_inner(index))),
        Expr::ReadPart(name, kind, first, second) => Some(Lvalue::Part(
            name,
            kind,
            Box::into_inner(first),
            Box::into_inner(second),
        )),
        Expr::Number(..)
        | Expr::Parens(..)
        | Expr::Apply(..)
        | Expr::Concat(..)
        | Expr::Repeat(..)
        | Expr::Unary(..)
        | Expr::Binary(..)
        | Expr::Choose(..) => None,
    }
}

/// Outputs, and those that terminals are after them.
fn outputs_of(mut outputs: Vec<Lvalue>, terminals: Vec<Expr>) -> Result<Vec<Lvalue>, Memory>
    ensures { IfOk result (λ made. map target made.items
        ≡ map target outputs.items ++ flat_map output_of (map formula terminals.items)) }
{
    for terminal in terminals {
        if let Some(output) = output_of(terminal) {
            outputs.push(output)?;
        }
    }
    Ok(outputs)
}

/// What a gate of one input drives.
fn one_input(
    alloc: Global,
    inverted: bool,
    at: u32,
    outputs: Vec<Lvalue>,
    mut terminals: Vec<Expr>,
) -> Result<Option<GateDrive>, Memory>
    ensures { IfOk result (λ made. option_to_list (option_map gate_drive made)
        ≡ one_input inverted at (map target outputs.items) (map formula terminals.items)) }
{
    let Some(last) = terminals.pop() else {
        return Ok(None);
    };
    let value = alone(alloc, inverted, at, last)?;
    let outputs = outputs_of(outputs, terminals)?;
    Ok(Some(GateDrive { outputs, value }))
}

/// The value of a gate of several inputs, where it has any.
fn value_of(
    alloc: Global,
    inverted: bool,
    operator: BinaryOperator,
    at: u32,
    mut terminals: Vec<Expr>,
) -> Result<Option<Expr>, Memory>
    ensures { IfOk result (λ made. (output : Target) → driven (output ∷ []) (option_to_list (option_map formula made))
        ≡ several_inputs inverted operator at output (map formula terminals.items)) }
{
    if terminals.len() > 1 {
        return together(alloc, inverted, operator, at, terminals);
    }
    match terminals.pop() {
        None => Ok(None),
        Some(only) => Ok(Some(alone(alloc, inverted, at, only)?)),
    }
}

/// What a gate of several inputs drives.
fn several_inputs(
    alloc: Global,
    inverted: bool,
    operator: BinaryOperator,
    output: Lvalue,
    terminals: Vec<Expr>,
) -> Result<Option<GateDrive>, Memory>
    ensures { IfOk result (λ made. option_to_list (option_map gate_drive made)
        ≡ several_inputs inverted operator (target_place (target output)) (target output) (map formula terminals.items)) }
{
    let at = output.place();
    match value_of(alloc, inverted, operator, at, terminals)? {
        None => Ok(None),
        Some(value) => {
            let outputs = vec![in alloc; output]?;
            Ok(Some(GateDrive { outputs, value }))
        }
    }
}

/// What one gate drives.
fn drive_of(
    alloc: Global,
    kind: GateKind,
    output: Lvalue,
    terminals: Vec<Expr>,
) -> Result<Option<GateDrive>, Memory>
    ensures { IfOk result (λ made. option_to_list (option_map gate_drive made)
        ≡ drives_of kind (record { name = None; output = target output; terminals = map formula terminals.items })) }
{
    let inverted = match kind {
        GateKind::And | GateKind::Or | GateKind::Xor | GateKind::Buf => false,
        GateKind::Nand | GateKind::Nor | GateKind::Xnor | GateKind::Not => true,
    };
    let operator = match kind {
        GateKind::And | GateKind::Nand => Some(BinaryOperator::BitwiseAnd),
        GateKind::Or | GateKind::Nor => Some(BinaryOperator::BitwiseOr),
        GateKind::Xor | GateKind::Xnor => Some(BinaryOperator::BitwiseXor),
        GateKind::Buf | GateKind::Not => None,
    };
    match operator {
        Some(operator) => several_inputs(alloc, inverted, operator, output, terminals),
        None => {
            let at = output.place();
            one_input(alloc, inverted, at, vec![in alloc; output]?, terminals)
        }
    }
}

/// The names of gates, and what they drive.
fn drives_of(alloc: Global, kind: GateKind, gates: Vec<Gate>) -> Result<Driving, Memory>
    ensures { IfOk result (λ made.
        (map identifier made.names.items ≡ flat_map name_of (map gate gates.items))
        × (map gate_drive made.drives.items ≡ flat_map (drives_of kind) (map gate gates.items))) }
{
    let mut names = Vec::new(alloc);
    let mut drives = Vec::new(alloc);
    for one in gates {
        let Gate {
            name,
            output,
            terminals,
        } = one;
        if let Some(name) = name {
            names.push(name)?;
        }
        if let Some(drive) = drive_of(alloc, kind, output, terminals)? {
            drives.push(drive)?;
        }
    }
    Ok(Driving { names, drives })
}

/// The delay of an item that has gates.
fn plain_delay(delay: GateDelay) -> Delay
    ensures { pause result ≡ plain_pause (gate_pause delay) }
{
    let GateDelay { at, ticks } = delay;
    match ticks {
        GateTicks::One(ticks) => Delay { at, ticks },
        GateTicks::Two(rise, _) => Delay {
            at,
            ticks: Ticks::Parens(rise),
        },
    }
}

/// Gates as an item: their names, and what they drive.
pub fn gates_item(
    alloc: Global,
    at: u32,
    kind: GateKind,
    delay: Option<GateDelay>,
    gates: Vec<Gate>,
) -> Result<Item, Memory>
    ensures { IfOk result (λ made. module_item made
        ≡ gates_item at kind (option_map gate_pause delay) (map gate gates.items)) }
{
    let all = drives_of(alloc, kind, gates)?;
    Ok(Item::Gates {
        at,
        names: all.names,
        delay: delay.map(plain_delay),
        drives: all.drives,
    })
}
