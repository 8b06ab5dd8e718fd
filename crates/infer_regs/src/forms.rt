//! The form of a process that waits for edges.

ghost use Rattle.std.specs.Prelude.{◌≡◌, ◌<◌, Some, length, map, IfOk};
ghost use Rattle.std.specs.List.{slice_get};
ghost use Rattle.rtl_flat.specs.Process.{Task, watched};
ghost use Rattle.rtl_flat.specs.Flats.{flat};
ghost use Rattle.net_list.specs.check_chains.Views.{guard_view};
ghost use Rattle.net_list.specs.Faults.{Waits};
ghost use Rattle.infer_regs.specs.Forms.{IsForm};

use crate::broken::first_broken;
use crate::facts::Facts;
use net_list::check_chains::chain::{Guard, chain_of};
use rtl_flat::act::{EventItem, ProcId};
use rtl_flat::design::Design;
use rtl_rule::rule::Rule;
use std::alloc::Global;
use text_ground::memory::Memory;

/// What a process that waits for edges is.
#[derive(Drop)]
pub enum Form<'d> {
    /// The first rule about its list, its clock or its resets that it breaks.
    Bad(Rule),
    /// Its clock, and its resets, the strongest first.
    Clock {
        clock: &'d EventItem,
        resets: Vec<&'d EventItem>,
    },
}

/// The items of resets.
fn items_of<'d>(alloc: Global, resets: &[Guard<'d>]) -> Result<Vec<&'d EventItem>, Memory>
    ensures { IfOk result (λ items. map (λ item. watched item.now) items.items
        ≡ map (λ guard. guard.item) (map guard_view resets.now)) }
{
    let mut items = Vec::new(alloc);
    for guard in resets {
        items.push(guard.item)?;
    }
    Ok(items)
}

/// The form of a process that waits for edges.
///
/// Fails where memory runs out.
pub fn form_of<'d>(alloc: Global, design: &'d Design, p: ProcId) -> Result<Form<'d>, Memory>
    requires { Waits (flat design.now) p.0 }
    ensures { let d = flat design.now in
        IfOk result (λ form. (task : Task) → slice_get d.tasks p.0 ≡ Some task
        → IsForm d p.0 task form) }
{
    let facts = Facts::of(alloc, design)?;
    if let Some(rule) = first_broken(alloc, design, &facts, p)? {
        return Ok(Form::Bad(rule));
    }
    match chain_of(alloc, design, &design.processes[p.0 as usize].does)? {
        Some(chain) => {
            let resets = items_of(alloc, &chain.resets)?;
            Ok(Form::Clock {
                clock: chain.clock,
                resets,
            })
        }
        None => Ok(Form::Bad(Rule::ResetShape)),
    }
}
