// Processes that have the form of a latch with a gate.

ghost use Rattle.std.specs.Prelude.{◌≡◌, ◌==◌, ◌<◌, ◌↔◌, true, length, Some, map, IfOk};
ghost use Rattle.std.specs.List.{slice_get};
ghost use Rattle.std.specs.Option.{option_map};
ghost use Rattle.rtl_flat.specs.Expression.{tree};
ghost use Rattle.rtl_flat.specs.Process.{Task, action, body_of};
ghost use Rattle.rtl_flat.specs.Flats.{flat};
ghost use Rattle.net_model.specs.Gates.{gate_compared, gate_test};
ghost use Rattle.check_chains.specs.Inner.{whole_of};
ghost use Rattle.check_chains.specs.check_found.Scanned.{AreScans};
ghost use Rattle.check_gates.specs.Forms.{AreForms, IsBodyForm, IsFormOf, compared_with, complement_test, form_view, test_at};

use crate::fit::fits;
use crate::links::whole_of;
use crate::lone::lone_if;
use check_chains::check_found::scans::Scans;
use rtl_bits::{Bit, Vec4};
use rtl_flat::act::{Act, Does, ProcId};
use rtl_flat::expr::{Compare, Fold, Node, SigId, SizedExpr, Turn};
use std::alloc::Global;
use text_ground::memory::Memory;

/// A signal that a process tests, and the value at which it goes on.
#[derive(Clone, Copy)]
pub(crate) struct Form {
    pub(crate) signal: SigId,
    pub(crate) opens_at: Bit,
}

fn test_at(e: &SizedExpr, opens_at: Bit) -> Option<Form>
    ensures { option_map form_view result ≡ test_at opens_at (whole_of (tree e.now)) }
{
    let signal = whole_of(e)?;
    Some(Form { signal, opens_at })
}

/// The test of a signal of one bit by `~`.
fn complemented(a: &SizedExpr) -> Option<Form>
    ensures { option_map form_view result
        ≡ complement_test a.now.width (whole_of (tree a.now)) }
{
    if a.width != 1 {
        return None;
    }
    test_at(a, Bit::Zero)
}

/// The test of a signal by `==` with a literal.
fn compared(signal: SigId, bits: Vec4) -> Option<Form>
    ensures { option_map form_view result ≡ gate_compared signal.0 bits }
{
    if bits.width() != 1 {
        return None;
    }
    match bits.bit(0) {
        Bit::One => Some(Form {
            signal,
            opens_at: Bit::One,
        }),
        Bit::Zero => Some(Form {
            signal,
            opens_at: Bit::Zero,
        }),
        Bit::X => None,
        Bit::Z => None,
    }
}

/// The test of an expression by `==` with another.
fn compared_with(e: &SizedExpr, other: &SizedExpr) -> Option<Form>
    ensures { option_map form_view result ≡ compared_with (whole_of (tree e.now)) (tree other.now) }
{
    let signal = whole_of(e)?;
    match &other.node {
        Node::Literal(bits) => compared(signal, *bits),
        _ => None,
    }
}

/// The test of a gate that an expression is: `g`, `!g`, `~g`, `g == 1'b1` or `g == 1'b0`.
fn gate_test(e: &SizedExpr) -> Option<Form>
    ensures { option_map form_view result ≡ gate_test (tree e.now) }
{
    match &e.node {
        Node::Read(_, _) => test_at(e, Bit::One),
        Node::Folded(operator, a) => match operator {
            Fold::Negation => test_at(a, Bit::Zero),
            _ => None,
        },
        Node::Turned(operator, a) => match operator {
            Turn::Complement => complemented(a),
            _ => None,
        },
        Node::Compared(operator, a, b) => match operator {
            Compare::Equal => compared_with(a, b),
            _ => None,
        },
        Node::Literal(_) => None,
        Node::Joined(..) => None,
        Node::Linked(..) => None,
        Node::Shifted(..) => None,
        Node::Chosen(..) => None,
        Node::Concat(_) => None,
        Node::Repeated(..) => None,
        Node::Recast(_) => None,
    }
}

/// The form of a process without edges, by its body.
fn body_form(alloc: Global, scans: &Scans, p: ProcId, body: &[Act]) -> Result<Option<Form>, Memory>
    requires scans { AreScans scans.now }
    requires there { p.0 < length scans.now.design.now.processes.items }
    ensures { let d = flat scans.now.design.now in
        IfOk result (λ form. (task : Task) → slice_get d.tasks p.0 ≡ Some task →
        IsBodyForm d task.does (body_of (map action body.now)) form) }
{
    let Some(lone) = lone_if(body) else {
        return Ok(None);
    };
    let Some(form) = gate_test(lone.test) else {
        return Ok(None);
    };
    if fits(alloc, scans, p, lone.taken, form.signal)? {
        return Ok(Some(form));
    }
    Ok(None)
}

/// The form of a process, if it has one.
fn form_of(alloc: Global, scans: &Scans, p: ProcId) -> Result<Option<Form>, Memory>
    requires scans { AreScans scans.now }
    requires there { p.0 < length scans.now.design.now.processes.items }
    ensures { let d = flat scans.now.design.now in
        IfOk result (λ form. (task : Task) → slice_get d.tasks p.0 ≡ Some task →
        IsFormOf d task.does form) }
{
    match &scans.design.processes[p.0 as usize].does {
        Does::Assign { .. } => Ok(None),
        Does::Comb { list: _, body } => body_form(alloc, scans, p, body),
        Does::Edge { .. } => Ok(None),
    }
}

/// The forms of all processes.
pub(crate) fn forms(alloc: Global, scans: &Scans) -> Result<Vec<Option<Form>>, Memory>
    requires { AreScans scans.now }
    ensures { let d = flat scans.now.design.now in
        IfOk result (λ forms. AreForms d (length d.tasks) forms.items) }
{
    let mut forms = Vec::new(alloc);
    for number in 0..scans.design.processes.len() {
        let form = form_of(alloc, scans, ProcId(number as u32))?;
        forms.push(form)?;
    }
    Ok(forms)
}
