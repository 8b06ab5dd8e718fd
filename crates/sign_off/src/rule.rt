//! All rules over a design.

ghost use Rattle.std.specs.Prelude.{◌≡◌, ◌↔◌, ℕ, [], Option, IsTrue, IfOk};
ghost use Rattle.rtl_flat.specs.Flats.{flat, parts};
ghost use Rattle.sign_firm.specs.check_clean.event_settling.Ending.{RunsEnd};
ghost use Rattle.net_model.specs.declared.fill.Fill.{Fill};
ghost use Rattle.net_model.specs.Cycle.{AreChains, Chain};
ghost use Rattle.sign_firm.specs.check_clean.sign_cycles.Agree.{Agree};
ghost use Rattle.sign_firm.specs.check_clean.sign_cycles.BringUp.{BringsUp, HaveResets};
ghost use Rattle.sign_firm.specs.check_clean.sign_cycles.Known.{KnownSettles};
ghost use Rattle.sign_firm.specs.check_clean.sign_cycles.Lacking.{BringUpsAre};
ghost use Rattle.sign_firm.specs.check_clean.check_all.Findings.{AreAllFindings, IsClean};
ghost use Rattle.sign_firm.specs.check_clean.Benches.{ServesBenches};
ghost use Rattle.sign_firm.specs.check_clean.Levelled.{AreLevels, RestsByLevel};
ghost use Rattle.net_clean.specs.Netlist.{HasHardware};
ghost use Rattle.sign_firm.specs.Firm.{IsFirm};

use crate::promise::vouch;
use rtl_flat::design::Design;
use rtl_rule::finding::{Ruling, has_first_grade};
use sign_firm::check_clean::check_all::check;
use std::alloc::Global;
use text_ground::memory::Memory;

/// Applies every rule to a design: all findings in their order, and the judgement.
///
/// # Errors
///
/// Memory ran out.
pub fn rule(alloc: Global, design: &Design) -> Result<Ruling, Memory>
    ensures findings { IfOk result (λ r. AreAllFindings (parts design.now) r.findings.items) }
    ensures clean { IfOk result (λ r. IsTrue r.clean ↔ IsClean r.findings.items) }
    ensures firm { IfOk result (λ r. IsTrue r.firm ↔ (r.findings.items ≡ [])) }

    // What a clean design promises: blocks that wait for edges have clocks and resets, with which every run of the
    // event queue shows the synthesised values, those of registers and of latches with gates among them, from each
    // state with inputs, registers and latches known to which steps from power-up lead, as a bring-up does where each
    // register has a reset; there is one, or an input resets one process at 1 and another at 0, and not both; and every
    // run comes to rest.
    ensures chained { IfOk result (λ r. IsTrue r.clean →
        (chains : ℕ → Chain) × AreChains (flat design.now) chains) }
    ensures sound { IfOk result (λ r. IsTrue r.clean →
        (chains : ℕ → Chain) → AreChains (flat design.now) chains →
        (fill : Fill) → Agree (flat design.now) chains fill) }
    ensures known { IfOk result (λ r. IsTrue r.clean →
        (chains : ℕ → Chain) → AreChains (flat design.now) chains →
        (fill : Fill) → KnownSettles (flat design.now) chains fill) }
    ensures brought_up { IfOk result (λ r. IsTrue r.clean →
        (chains : ℕ → Chain) → AreChains (flat design.now) chains →
        HaveResets (flat design.now) chains →
        (fill : Fill) → BringsUp (flat design.now) chains fill) }
    ensures bring_ups { IfOk result (λ r. IsTrue r.clean →
        (chains : ℕ → Chain) → AreChains (flat design.now) chains →
        BringUpsAre (flat design.now) chains) }
    ensures ended { IfOk result (λ r. IsTrue r.clean → RunsEnd (flat design.now)) }

    // By level each step does so within its budget. And synthesis refuses nothing of the design: registers and blocks are
    // inferred, and a simulator of them begins with whatever known values.
    ensures levelled { IfOk result (λ r. IsTrue r.clean →
        (level : ℕ → Option ℕ) → AreLevels (flat design.now) level →
        RestsByLevel (flat design.now) level) }
    ensures hardware { IfOk result (λ r. IsTrue r.clean → HasHardware (flat design.now)) }

    // Nor does a test bench that gives data beside a turn of a clock or a reset, by nonblocking assignments, see
    // anything but the synthesised values after the turn and then the data; nor one that changes several inputs in a
    // step in which no clock fires, in whatever order.
    ensures benches { IfOk result (λ r. IsTrue r.clean → ServesBenches (flat design.now)) }

    // What a firm design promises beside: from wherever inputs and registers with a reset are known, each bit that is
    // known after lawful steps is the synthesised value's, whatever the unknown bits are taken for.
    ensures sound_unknown { IfOk result (λ r. IsTrue r.firm → IsFirm (flat design.now)) }
{
    let findings = check(alloc, design)?;
    vouch(design, &findings);
    let clean = !has_first_grade(&findings);
    let firm = findings.is_empty();
    Ok(Ruling {
        findings,
        clean,
        firm,
    })
}
