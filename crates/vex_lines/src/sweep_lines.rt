//! The lines of a sweep.

ghost use Rattle.std.specs.Prelude.{◌≡◌, [], flat_map};
ghost use Rattle.vex_encode.specs.Sweep.{swept};
ghost use Rattle.vex_lines.specs.Ends.{Writes};
ghost use Rattle.vex_lines.specs.Internal.Stops.{Answers};
ghost use Rattle.vex_lines.specs.SweepLines.{item_line, sweep_lines};

use crate::ends::{Failed, Sink};
use crate::line_text::{LineText, end_text, item_text};
use crate::stop::Stop;
use std::alloc::Global;
use vex_encode::{Items, NoMemory, sweep};
use x86_settings::InstDecoder;

/// Writes a line for each item, in one write each.
fn write_items<K: Sink>(items: &Items<'_>, text: &mut LineText, sink: &mut K) -> Result<(), Failed>
    ensures { Writes result (K.text sink.old) (K.text sink.new) (K.faults sink.old) (K.faults sink.new)
        (flat_map item_line items.now) }
{
    let list = items.as_slice();
    for item in list {
        item_text(text, item);
        sink.write_all(text.as_str().as_bytes())?;
    }
    Ok(())
}

/// Sweeps these bytes under settings, and writes a line for each instruction and one for the end, in one write each.
/// Nothing is written where there is no memory.
pub fn write_sweep<K: Sink>(
    alloc: Global,
    settings: &InstDecoder,
    bytes: &[u8],
    text: &mut LineText,
    sink: &mut K,
) -> Result<(), Stop>
    ensures { Answers (λ written. written ≡ []) result (K.text sink.old) (K.text sink.new) (K.faults sink.old)
        (K.faults sink.new)
        (sweep_lines (swept settings.now bytes.now)) }
{
    let swept = match sweep(alloc, settings, bytes) {
        Ok(swept) => swept,
        Err(NoMemory) => return Err(Stop::NoMemory),
    };
    write_items(&swept.items, text, sink)?;
    end_text(text, &swept.end);
    sink.write_all(text.as_str().as_bytes())?;
    Ok(())
}
