//! Where a dump first departs from synthesised hardware.

ghost use Rattle.std.specs.Prelude.{◌≡◌, ◌<◌, [], List, IfErr, IfOk, MatchOption, Some, drop, length, true};
ghost use Rattle.std.specs.List.{list_all, slice_get};
ghost use Rattle.rtl_bits.specs.declared.Bit.{Bit};
ghost use Rattle.rtl_flat.specs.Flats.{flat};
ghost use Rattle.netlist_eval.specs.Basis.{IsBasisOf};
ghost use Rattle.netlist_eval.specs.Sims as sims;
ghost use Rattle.netlist_eval.specs.Sims.{netlist_of, shown};
ghost use Rattle.netlist_eval.specs.net_start.Stored.{places};
ghost use Rattle.vcd_signals.specs.Recording.{IsAt, IsRecorder, IsSame, flat_of, kept, sights_of};
ghost use Rattle.vcd_signals.specs.Signals.{Sight};
ghost use Rattle.vcd_signals.specs.vcd_read.Reading.{dump_of};
ghost use Rattle.vcd_check.specs.Checks.{AreMarks, IsNetlistOf, seen, watched_of};
ghost use Rattle.vcd_check.specs.declared.verdict.Verdict.TheVariants.{Departs};
ghost use Rattle.vcd_check.specs.Departure.{AreFirst, from_start, is_known, is_start};
ghost use Rattle.vcd_check.specs.Telling.{IsChecked, IsTellFault, IsToldFault};
ghost use Rattle.vcd_check.specs.Verdicts.{HasNetlist, IsCompareFault, IsTold, IsVerdict};

use crate::follow::follow;
use crate::marks::marks_of;
use crate::setup::{basis_of, netlist_of};
use crate::sight::{all_known, departure, first_missing, values};
use crate::verdict::{CompareFault, Verdict};
use netlist_eval::basis::Basis;
use netlist_eval::fault::NetFault;
use netlist_eval::net_list::netlist::Netlist;
use netlist_eval::net_start::stored::{stored, top_inputs};
use netlist_eval::sim::NetSim;
use rtl_flat::design::Design;
use rtl_flat::expr::SigId;
use std::alloc::Global;
use text_ground::memory::Memory;
use vcd_signals::Recorder;
use vcd_signals::vcd_read::Dump;

/// Whether all that a simulator of the netlist begins with is known.
fn is_start(basis: &Basis, recorder: &Recorder) -> bool
    requires { IsRecorder recorder.now }
    ensures { result ≡ is_start (watched_of basis.now) (seen recorder.now) }
{
    all_known(recorder, &basis.tops) && all_known(recorder, &basis.holders)
}

/// The first time at which all that a simulator of the netlist begins with is known.
fn start(basis: &Basis, recorder: &mut Recorder) -> Option<usize>
    requires { IsRecorder recorder.old }
    ensures start { let sights = sights_of recorder.old in MatchOption result
        (from_start (watched_of basis.now) sights ≡ [])
        (λ frame. (frame < length sights)
        × (from_start (watched_of basis.now) sights ≡ drop frame sights)
        × ((sight : Sight) → slice_get sights frame ≡ Some sight → IsAt recorder.new sight)
        × (is_start (watched_of basis.now) (seen recorder.new) ≡ true)) }
    ensures recorder { IsRecorder recorder.new }
    ensures same { IsSame recorder.old recorder.new }
{
    for frame in 0..recorder.count() {
        recorder.go_to(frame);
        if is_start(basis, recorder) {
            return Some(frame);
        }
    }
    None
}

/// A simulator that begins with what is recorded now.
fn begin<'c>(
    alloc: Global,
    netlist: &'c Netlist<'c>,
    basis: &Basis,
    recorder: &Recorder,
) -> Result<NetSim<'c>, Memory>
    requires netlist { IsNetlistOf recorder.now.design.now netlist.now }
    requires basis { IsBasisOf (flat_of recorder.now) basis.now }
    requires known { list_all (λ i. is_known (kept recorder.now i)) (places basis.now.tops.items)
        ≡ true }
    requires stored { list_all (λ i. is_known (kept recorder.now i))
        (places basis.now.holders.items) ≡ true }
    requires recorder { IsRecorder recorder.now }
    ensures first { IfOk result (λ net. AreFirst (flat_of recorder.now) (watched_of basis.now)
        (seen recorder.now) (shown net)) }
    ensures netlist { IfOk result (λ net. netlist_of net ≡ netlist.now) }
{
    let registers = values(alloc, recorder, &basis.holders)?;
    let inputs = values(alloc, recorder, &basis.tops)?;
    match NetSim::on(alloc, netlist, basis, &registers, &inputs) {
        Ok(net) => Ok(net),
        // There is an order of the processes, and all is known.
        Err(NetFault::Cyclic(_)) => unreachable!(),
        Err(NetFault::NotKnown(_)) => unreachable!(),
        Err(NetFault::Memory) => Err(Memory),
    }
}

/// How a signal departs.
fn departs(recorder: &Recorder, net: &NetSim, frame: usize, signal: SigId) -> Verdict
    requires recorder { IsRecorder recorder.now }
    requires inside { signal.0 < length (sims.flat_of net.now).signals }
    requires frame { frame < length (sights_of recorder.now) }
    ensures { (sight : Sight) (bits : List Bit) → slice_get (sights_of recorder.now) frame ≡ Some sight
        → kept recorder.now signal.0 ≡ Some bits
        → result ≡ Departs sight.time signal bits (shown net.now signal.0) }
{
    let synthesised = net.value(signal);
    Verdict::Departs {
        time: recorder.time(frame),
        signal,
        recorded: recorder.value(signal).unwrap_or(synthesised),
        synthesised,
    }
}

/// What is told of the times from one on.
fn go_on(
    alloc: Global,
    basis: &Basis,
    stored: &[bool],
    recorder: &mut Recorder,
    net: &mut NetSim,
    design: &Design,
    start: usize,
) -> Result<Verdict, CompareFault>
    requires checked { IsChecked design.now basis.now stored.now recorder.old net.old }
    requires there { start < length (sights_of recorder.old) }
    requires at { (sight : Sight) → slice_get (sights_of recorder.old) start ≡ Some sight
        → IsAt recorder.old sight }
    requires begun { AreFirst (flat design.now) (watched_of basis.now) (seen recorder.old)
        (shown net.old) }
    requires from { from_start (watched_of basis.now) (sights_of recorder.old)
        ≡ drop start (sights_of recorder.old) }
    ensures told { IfOk result (λ verdict. IsTold (flat design.now) (watched_of basis.now)
        (sights_of recorder.old) verdict) }
    ensures fault { IfErr result (λ fault. IsToldFault (flat design.now) (watched_of basis.now)
        (sights_of recorder.old) fault) }
{
    let count = recorder.count();
    let mut frame = start;
    'frames: loop {
        if let Some(signal) = departure(design, stored, recorder, net) {
            return Ok(departs(recorder, net, frame, signal));
        }
        frame += 1;
        if frame == count {
            return Ok(Verdict::Agrees {
                frames: frame - start,
            });
        }
        recorder.go_to(frame);
        if !follow(alloc, basis, recorder, net)? {
            return Err(CompareFault::Unlawful(recorder.time(frame)));
        }
    }
}

/// What is told of a dump by a netlist.
fn tell_by(
    alloc: Global,
    netlist: &Netlist<'_>,
    basis: &Basis,
    stored: &[bool],
    recorder: &mut Recorder,
    design: &Design,
) -> Result<Verdict, CompareFault>
    requires recorder { IsRecorder recorder.old }
    requires netlist { IsNetlistOf design.now netlist.now }
    requires basis { IsBasisOf (flat design.now) basis.now }
    requires stored { AreMarks (length design.now.signals.items) (places basis.now.holders.items)
        stored.now }
    requires design { recorder.old.design.now ≡ design.now }
    ensures told { IfOk result (λ verdict. IsTold (flat design.now) (watched_of basis.now)
        (sights_of recorder.old) verdict) }
    ensures fault { IfErr result (λ fault. IsToldFault (flat design.now) (watched_of basis.now)
        (sights_of recorder.old) fault) }
{
    let Some(start) = start(basis, recorder) else {
        return Err(CompareFault::NeverKnown);
    };
    let mut net = begin(alloc, netlist, basis, recorder)?;
    go_on(alloc, basis, stored, recorder, &mut net, design, start)
}

/// What is told of a dump by the netlist of a design.
fn tell(
    alloc: Global,
    basis: &Basis,
    stored: &[bool],
    recorder: &mut Recorder,
    design: &Design,
) -> Result<Verdict, CompareFault>
    requires recorder { IsRecorder recorder.old }
    requires basis { IsBasisOf (flat design.now) basis.now }
    requires stored { AreMarks (length design.now.signals.items) (places basis.now.holders.items)
        stored.now }
    requires design { recorder.old.design.now ≡ design.now }
    ensures told { IfOk result (λ verdict. HasNetlist (flat design.now)
        × IsTold (flat design.now) (watched_of basis.now) (sights_of recorder.old) verdict) }
    ensures fault { IfErr result (λ fault. IsTellFault (flat design.now) (watched_of basis.now)
        (sights_of recorder.old) fault) }
{
    let Some(netlist) = netlist_of(alloc, design)? else {
        return Err(CompareFault::NoNetlist);
    };
    tell_by(alloc, &netlist, basis, stored, recorder, design)
}

/// Where a dump of any simulator first departs from what synthesis means by a design, whose top the dump has in a scope: the
/// names on the way to it, with dots between them.
///
/// It begins at the first time at which every top input, register and latch is known. From there on inputs are taken from the
/// dump, and the top outputs, registers and latches that it records are compared after each time.
///
/// Fails with `MissingInput` of the least top input that isn't recorded, then with `MissingRegister` of the least register or
/// latch; then with `NoNetlist` where the design has none; with `NeverKnown` where there is no start; with `Unlawful` of the
/// first time up to which inputs change otherwise than by one step, or by an edge and data behind it; and where memory runs
/// out.
pub fn compare(
    alloc: Global,
    design: &Design,
    scope: &str,
    dump: &Dump,
) -> Result<Verdict, CompareFault>
    ensures verdict { IfOk result (IsVerdict (flat design.now) scope.now (dump_of dump.now)) }
    ensures fault { IfErr result (IsCompareFault (flat design.now) scope.now (dump_of dump.now)) }
{
    let mut recorder = Recorder::new(alloc, design, scope.as_bytes(), dump)?;
    let tops = top_inputs(alloc, design)?;
    let inputs = marks_of(alloc, design, &tops)?;
    if let Some(signal) = first_missing(&recorder, &inputs) {
        return Err(CompareFault::MissingInput(signal));
    }
    let holders = stored(alloc, design)?;
    let marks = marks_of(alloc, design, &holders)?;
    if let Some(signal) = first_missing(&recorder, &marks) {
        return Err(CompareFault::MissingRegister(signal));
    }
    let Some(basis) = basis_of(alloc, design)? else {
        return Err(CompareFault::NoNetlist);
    };
    tell(alloc, &basis, &marks, &mut recorder, design)
}
