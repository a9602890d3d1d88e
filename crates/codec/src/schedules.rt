//! Schedules of pairings in CSV.
//! Schedules with a fault each: `tests/texts.py`. Wrong bodies: `must-fail-more/`.
ghost use Rattle.std.specs.Prelude.{◌≡◌, ◌⊎◌, ℕ, IfOk, IfErr};
ghost use Rattle.codec.specs.Schedule.{IsAtFault, IsSchedule};
ghost use Rattle.stored_json.specs.declared.fault.CodecFault.TheVariants.{BadCsv, Memory};

use crate::fault::ScheduleFault;
use crate::reading;
use duty::Pairing;
use std::alloc::Global;
use stored_json::CodecFault;

/// Reads the pairings of a schedule in CSV, or reports the record at fault of the first pass that finds one: 30 with that
/// record, the header being record 1, and 0 for a schedule of over 1,048,576 bytes. Besides it comes only out of
/// memory.
pub fn schedule_of_csv(alloc: Global, text: &[u8]) -> Result<Vec<Pairing>, CodecFault>
    ensures read { IfOk result (λ pairings. IsSchedule text.now pairings.items) }
    ensures refused { IfErr result
        (λ fault. (fault ≡ Memory) ⊎ ((n : ℕ) × (fault ≡ BadCsv n) × IsAtFault text.now n)) }
{
    match reading::schedule_of_csv(alloc, text) {
        Ok(pairings) => Ok(pairings),
        Err(ScheduleFault::Record(line)) => Err(CodecFault::BadCsv(line)),
        Err(ScheduleFault::Memory) => Err(CodecFault::Memory),
    }
}
