//! The lines that a simulator writes, one a step.

ghost use Rattle.std.specs.Prelude.{◌≡◌, ◌<◌, ◌++◌, length, OnOk};
ghost use Rattle.event_queue.specs.Sims.{flat_of, state_of};
ghost use Rattle.desk_runs.specs.Lines.{number_text, output_text, outputs_text, rested_line, signal_text, unsettled_line};

use desk_report::push_value;
use desk_steps::top_name;
use event_queue::sim::EventSim;
use itoa::Buffer;
use rtl_bits::Vec4;
use rtl_flat::design::Design;
use rtl_flat::expr::SigId;
use rtl_flat::instance::Instance;
use rtl_flat::signal::Signal;
use std::alloc::Global;
use text_ground::memory::Memory;

/// The number of a step.
fn push_number(out: &mut Vec<u8>, number: usize) -> Result<(), Memory>
    ensures { OnOk result (out.new.items ≡ out.old.items ++ number_text number) }
{
    let mut digits = Buffer::new();
    out.extend_from_slice(b"step ")?;
    out.extend_from_slice(digits.format(number).as_bytes())?;
    Ok(())
}

/// An output of the top, and its value.
fn push_output(alloc: Global, name: &[u8], value: Vec4, out: &mut Vec<u8>) -> Result<(), Memory>
    ensures { OnOk result (out.new.items ≡ out.old.items ++ output_text name.now value) }
{
    out.push(b' ')?;
    out.extend_from_slice(name)?;
    out.push(b'=')?;
    push_value(alloc, value, out)
}

/// A signal with this number, if it is an output of the top.
fn push_signal(
    alloc: Global,
    instances: &[Instance],
    sim: &EventSim<'_>,
    number: SigId,
    signal: &Signal,
    out: &mut Vec<u8>,
) -> Result<(), Memory>
    requires { number.0 < length (flat_of sim.now).signals }
    ensures { OnOk result (out.new.items
        ≡ out.old.items ++ signal_text instances.now (state_of sim.now).value number.0 signal.now) }
{
    if signal.top_output {
        push_output(alloc, top_name(instances, signal), sim.value(number), out)
    } else {
        Ok(())
    }
}

/// The outputs of the top.
fn push_outputs(
    alloc: Global,
    design: &Design,
    sim: &EventSim<'_>,
    out: &mut Vec<u8>,
) -> Result<(), Memory>
    requires { (flat_of sim.now).signals ≡ design.now.signals.items }
    ensures { OnOk result (out.new.items
        ≡ out.old.items ++ outputs_text design.now.instances.items
        (state_of sim.now).value 0 design.now.signals.items) }
{
    for (number, signal) in design.signals.iter().enumerate() {
        push_signal(
            alloc,
            &design.instances,
            sim,
            SigId(number as u32),
            signal,
            out,
        )?;
    }
    Ok(())
}

/// The line of a step that came to rest.
pub(crate) fn push_rested(
    alloc: Global,
    design: &Design,
    sim: &EventSim<'_>,
    number: usize,
    out: &mut Vec<u8>,
) -> Result<(), Memory>
    requires { (flat_of sim.now).signals ≡ design.now.signals.items }
    ensures { OnOk result (out.new.items
        ≡ out.old.items ++ rested_line design.now.instances.items design.now.signals.items number
        (state_of sim.now).value) }
{
    push_number(out, number)?;
    push_outputs(alloc, design, sim, out)?;
    out.push(b'\n')?;
    Ok(())
}

/// The line of a step that didn't settle.
pub(crate) fn push_unsettled(out: &mut Vec<u8>, number: usize) -> Result<(), Memory>
    ensures { OnOk result (out.new.items ≡ out.old.items ++ unsettled_line number) }
{
    push_number(out, number)?;
    out.extend_from_slice(b" unsettled\n")?;
    Ok(())
}
