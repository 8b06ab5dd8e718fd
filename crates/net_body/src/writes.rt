//! One write, in either way.

ghost use Rattle.std.specs.Prelude.{◌≡◌, ◌≤◌, ◌<◌, ◌+◌, cond, length};
ghost use Rattle.rtl_flat.specs.Signs.{width_in};
ghost use Rattle.net_model.specs.Block.{write_next, write_now};
ghost use Rattle.net_body.specs.Marks.{AreKept, maps};

use crate::mark::Mark;
use rtl_bits::Vec4;
use rtl_flat::expr::SigId;
use rtl_flat::signal::Signal;

/// Writes bits over those of a signal from a place on.
pub(crate) fn write(
    signals: &[Signal],
    signal: SigId,
    at: u8,
    bits: Vec4,
    delayed: bool,
    numbers: &mut [Vec4],
    marks: &mut [Mark],
)
    requires there { signal.0 < length signals.now }
    requires inside { at + length bits ≤ width_in signals.now signal.0 }
    requires kept { AreKept signals.now numbers.old marks.old }
    ensures maps { maps numbers.new marks.new
        ≡ cond delayed (write_next (maps numbers.old marks.old)
        (record { signal = signal.0; at = at; bits = bits }))
        (write_now (maps numbers.old marks.old)
        (record { signal = signal.0; at = at; bits = bits })) }
    ensures kept { AreKept signals.now numbers.new marks.new }
{
    let place = signal.0 as usize;
    let mark = marks[place];
    if delayed {
        marks[place] = mark.with_next(at, bits);
    } else {
        let number = numbers[place];
        numbers[place] = number.replace(at, bits);
        marks[place] = mark.with_now(at, bits.width());
    }
}
