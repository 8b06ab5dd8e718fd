//! The simulator of a netlist.

ghost use Rattle.std.specs.Prelude.{◌≡◌, false, slice_index_or};
ghost use Rattle.netlist_eval.specs.Holding.{IsSimulator};

use crate::basis::Basis;
use crate::fault::NetFault;
use crate::step::Step;
use event_model::setting::Setting;
use infer_regs::check_gates::tops::is_top;
use infer_regs::net_list::netlist::Netlist;
use net_start::first_unknown;
use net_start::start::start;
use net_turn::net_body::Maps;
use net_turn::net_settle::settle::settle;
use net_turn::turn::{begin, turn};
use rtl_bits::{Bit, Vec4};
use rtl_flat::act::ProcId;
use rtl_flat::expr::SigId;
use std::alloc::Global;

/// A simulator of what synthesis means by a design. Only `NetSim::new` and `NetSim::on` take memory.
#[derive(Drop)]
pub struct NetSim<'n> {
    netlist: &'n Netlist<'n>,
    /// The processes without edges, each behind those that feed it.
    order: Vec<ProcId>,
    maps: Maps<'n>,
    /// Room for the numbers before a turn, and for those after it.
    before: Vec<Vec4>,
    after: Vec<Vec4>,
    /// Of each signal whether it is a clock, a reset or a gate among the top inputs.
    controls: Vec<bool>,
    ghost is_simulator: { ∥ IsSimulator netlist.now order.items maps
        before.items after.items controls.items ∥₁ },
}

fn is_marked(marks: &[bool], signal: SigId) -> bool
    ensures { result ≡ slice_index_or marks.now signal.0 false }
{
    marks.get(signal.0 as usize).copied().unwrap_or(false)
}

impl<'n> NetSim<'n> {
    ghost use Rattle.std.specs.Prelude.{ℕ, ◌≡◌, ◌↔◌, ◌<◌, ◌++◌, false, true, length, slice_index_or, IfErr, IfOk};
    ghost use Rattle.std.specs.List.{All};
    ghost use Rattle.rtl_bits.specs.Bits.{has_unknown};
    ghost use Rattle.rtl_flat.specs.Flats.{widths};
    ghost use Rattle.rtl_flat.specs.Value.{store};
    ghost use Rattle.net_model.specs.Gates.{IsControl};
    ghost use Rattle.net_model.specs.Cycle.{IsCycle};
    ghost use Rattle.net_model.specs.Lawful.{SetsData, TurnsControl};
    ghost use Rattle.net_model.specs.Numbers.{AreNumbers};
    ghost use Rattle.net_order.specs.net_solve.Laws.{IsOrder};
    ghost use Rattle.net_turn.specs.net_settle.Work.{numbers_of};
    ghost use Rattle.net_turn.specs.net_settle.Settle.{SetsInput, setting_view};
    ghost use Rattle.net_turn.specs.Steps.{AreFilled};
    ghost use Rattle.net_start.specs.Start.{AreKnown, AreValues};
    ghost use Rattle.net_start.specs.Stored.{AreInputs, AreStored};
    ghost use Rattle.netlist_eval.specs.Basis.{IsBasisOf};
    ghost use Rattle.netlist_eval.specs.Netlists.{chains_in, flat_in};
    ghost use Rattle.netlist_eval.specs.Sims.{flat_of, netlist_of, shown};
    ghost use Rattle.netlist_eval.specs.Steps.{HasNoCycle, IsBegun, IsFault, IsLawful, IsStepOf, Starts, step_view};

    /// A simulator that begins with values for registers and latches (`stored`) and for inputs (`top_inputs`), each in
    /// order of number.
    ///
    /// Fails with `Cyclic` of the least signal of a cycle; where there is none, with `NotKnown` of the first value that has
    /// an unknown bit; and where memory runs out.
    pub fn new(
        alloc: Global,
        netlist: &'n Netlist<'n>,
        registers: &[Vec4],
        inputs: &[Vec4],
    ) -> Result<NetSim<'n>, NetFault>
        requires registers { AreValues (flat_in netlist.now) (AreStored
            (flat_in netlist.now)) registers.now }
        requires inputs { AreValues (flat_in netlist.now) (AreInputs
            (flat_in netlist.now)) inputs.now }
        ensures netlist { IfOk result (λ sim. netlist_of sim ≡ netlist.now) }
        ensures begun { IfOk result (λ sim. IsBegun (flat_in netlist.now)
            (chains_in netlist.now) netlist.now.fill registers.now inputs.now (shown sim)) }
        ensures no_cycle { IfOk result (λ sim. HasNoCycle (flat_in netlist.now)) }
        ensures known { IfOk result (λ sim. AreKnown (registers.now ++ inputs.now)) }
        ensures fault { IfErr result (λ fault. IsFault (flat_in netlist.now)
            (registers.now ++ inputs.now) fault) }
    {
        let basis = Basis::of(alloc, netlist.design)?;
        NetSim::on(alloc, netlist, &basis, registers, inputs)
    }

    /// The same over the basis of the netlist's design, which serves many simulators. Fails as `new` does.
    pub fn on(
        alloc: Global,
        netlist: &'n Netlist<'n>,
        basis: &Basis,
        registers: &[Vec4],
        inputs: &[Vec4],
    ) -> Result<NetSim<'n>, NetFault>
        requires basis { IsBasisOf (flat_in netlist.now) basis.now }
        requires registers { AreValues (flat_in netlist.now) (AreStored
            (flat_in netlist.now)) registers.now }
        requires inputs { AreValues (flat_in netlist.now) (AreInputs
            (flat_in netlist.now)) inputs.now }
        ensures netlist { IfOk result (λ sim. netlist_of sim ≡ netlist.now) }
        ensures begun { IfOk result (λ sim. IsBegun (flat_in netlist.now)
            (chains_in netlist.now) netlist.now.fill registers.now inputs.now (shown sim)) }
        ensures no_cycle { IfOk result (λ sim. HasNoCycle (flat_in netlist.now)) }
        ensures known { IfOk result (λ sim. AreKnown (registers.now ++ inputs.now)) }
        ensures fault { IfErr result (λ fault. IsFault (flat_in netlist.now)
            (registers.now ++ inputs.now) fault) }
    {
        if let Some(at) = first_unknown(registers, inputs) {
            return Err(NetFault::NotKnown(at));
        }
        let numbers = start(
            alloc,
            netlist.design,
            &basis.kept,
            &basis.holders,
            registers,
            &basis.tops,
            inputs,
            netlist.fill,
        )?;
        let order = Vec::from_slice(alloc, &basis.order)?;
        let controls = Vec::from_slice(alloc, &basis.controls)?;
        NetSim::begin(alloc, netlist, order, controls, numbers)
    }

    /// A simulator that begins with numbers.
    ///
    /// Fails where memory runs out.
    fn begin(
        alloc: Global,
        netlist: &'n Netlist<'n>,
        order: Vec<ProcId>,
        controls: Vec<bool>,
        numbers: Vec<Vec4>,
    ) -> Result<NetSim<'n>, NetFault>
        requires order { IsOrder (flat_in netlist.now) (numbers_of order.items) }
        requires controls { (s : ℕ) →
            slice_index_or controls.items s false ≡ true ↔ IsControl (flat_in netlist.now) s }
        requires many { length numbers.items ≡ length netlist.now.design.now.signals.items }
        requires numbers { AreNumbers (flat_in netlist.now) (store numbers.items) }
        requires filled { AreFilled (flat_in netlist.now) netlist.now.fill (store numbers.items) }
        ensures netlist { IfOk result (λ sim. netlist_of sim ≡ netlist.now) }
        ensures starts { IfOk result (λ sim. Starts (flat_in netlist.now)
            (chains_in netlist.now) netlist.now.fill (store numbers.items) (shown sim)) }
        ensures memory { IfErr result (λ fault. fault ≡ NetFault.Memory) }
    {
        let design = netlist.design;
        let count = design.signals.len();
        let filler = Vec4::of_bit(Bit::Zero);
        let mut before = vec![in alloc; filler; count]?;
        let mut after = vec![in alloc; filler; count]?;
        let mut maps = Maps::new(alloc, design, numbers)?;
        begin(
            &mut maps,
            &order,
            &netlist.clocked,
            &mut before,
            &mut after,
            netlist.fill,
        );
        Ok(NetSim {
            netlist,
            order,
            maps,
            before,
            after,
            controls,
        })
    }

    /// The number of a signal, as known bits of its width.
    pub fn value(&self, signal: SigId) -> Vec4
        requires there { signal.0 < length (flat_of self.now).signals }
        ensures number { result ≡ shown self.now signal.0 }
        ensures known { has_unknown result ≡ false }
        ensures width { length result ≡ widths (flat_of self.now) signal.0 }
    {
        self.maps.numbers()[signal.0 as usize]
    }

    /// Whether a setting gives a top input a known value of its width.
    fn fits(&self, setting: &Setting) -> bool
        ensures { result ≡ true ↔ SetsInput (flat_of self.now) (setting_view setting.now) }
    {
        let design = self.netlist.design;
        is_top(design, setting.signal)
            && setting.value.is_known()
            && setting.value.width() == design.signals[setting.signal.0 as usize].width
    }

    /// Whether a signal is a clock, a reset or a gate among the top inputs.
    fn is_control(&self, signal: SigId) -> bool
        ensures { result ≡ true ↔ ∥ IsControl (flat_of self.now) signal.0 ∥₁ }
    {
        is_marked(&self.controls, signal)
    }

    /// Whether a setting gives a data input a known value of its width.
    fn sets_data(&self, setting: &Setting) -> bool
        ensures { result ≡ true ↔ SetsData (flat_of self.now) (setting_view setting.now) }
    {
        self.fits(setting) && !self.is_control(setting.signal)
    }

    /// Whether each of some settings does.
    fn all_set_data(&self, settings: &[Setting]) -> bool
        ensures { result
            ≡ true ↔ All (λ setting. SetsData (flat_of self.now)
            (setting_view setting)) settings.now }
    {
        for setting in settings {
            if !self.sets_data(setting) {
                return false;
            }
        }
        true
    }

    /// Whether a setting gives a clock, a reset or a gate the other value.
    fn turns_control(&self, setting: &Setting) -> bool
        ensures { result
            ≡ true ↔ ∥ TurnsControl (flat_of self.now) (shown self.now)
            (setting_view setting.now) ∥₁ }
    {
        self.fits(setting)
            && self.is_control(setting.signal)
            && !self.value(setting.signal).is_same(setting.value)
    }

    /// Settings as a step: one setting of a clock, a reset or a gate turns it, all others set data inputs.
    pub fn step_of<'a>(&self, settings: &'a [Setting]) -> Step<'a>
        ensures { IsStepOf (flat_of self.now) settings.now result }
    {
        if let [one] = settings {
            if self.is_control(one.signal) {
                return Step::Turn(*one);
            }
        }
        Step::Data(settings)
    }

    /// Whether a step may be taken: it gives known values of their width to data inputs, or the other value to one clock
    /// or reset.
    pub fn lawful(&self, step: &Step) -> bool
        ensures { result ≡ true ↔ IsLawful (flat_of self.now) (shown self.now) step.now }
    {
        match step {
            Step::Data(settings) => self.all_set_data(settings),
            Step::Turn(setting) => self.turns_control(setting),
        }
    }

    /// Takes a lawful step. It takes no memory.
    pub fn step(&mut self, step: &Step)
        requires lawful { IsLawful (flat_of self.old) (shown self.old) step.now }
        ensures cycle { let netlist = netlist_of self.old in IsCycle (flat_in netlist)
            (chains_in netlist) netlist.fill (shown self.old) (step_view step.now)
            (shown self.new) }
        ensures netlist { netlist_of self.new ≡ netlist_of self.old }
    {
        let fill = self.netlist.fill;
        match step {
            Step::Data(settings) => settle(&mut self.maps, &self.order, settings, fill),
            Step::Turn(setting) => turn(
                &mut self.maps,
                &self.order,
                &self.netlist.clocked,
                &mut self.before,
                &mut self.after,
                setting,
                fill,
            ),
        }
    }
}
