//! What was flown of a period as JSON.
//! Worked texts: `tests/report_json.py`.
ghost use Rattle.std.specs.Prelude.{◌≡◌, IfOk};
ghost use Rattle.serde_json.specs.View.{view};
ghost use Rattle.report_json.specs.PeriodJson as spec;

use duty::Actual;
use serde_json::Value;
use std::alloc::Global;
use stored_json::{Scalar, object_of, object_with_list};
use values::MemoryFault;

/// Makes a value of the times as flown, or null.
pub(crate) fn actual_value(alloc: Global, actual: &Option<Actual>) -> Result<Value, MemoryFault>
    ensures { IfOk result (λ value. view value ≡ spec.actual_json actual.now) }
{
    match actual {
        Some(actual) => flown_value(alloc, actual),
        None => Ok(Value::Null),
    }
}

fn flown_value(alloc: Global, actual: &Actual) -> Result<Value, MemoryFault>
    ensures { IfOk result (λ value. view value ≡ spec.flown_json actual.now) }
{
    let members = [
        ("release", Scalar::Instant(actual.release())),
        ("report", Scalar::Instant(actual.report())),
    ];
    object_with_list(alloc, &members, "segments", actual.segments())
}

/// Makes a value of the report and the release as flown, or null.
pub(crate) fn actual_ends(alloc: Global, actual: &Option<Actual>) -> Result<Value, MemoryFault>
    ensures { IfOk result (λ value. view value ≡ spec.actual_ends_json actual.now) }
{
    match actual {
        Some(actual) => flown_ends(alloc, actual),
        None => Ok(Value::Null),
    }
}

fn flown_ends(alloc: Global, actual: &Actual) -> Result<Value, MemoryFault>
    ensures { IfOk result (λ value. view value ≡ spec.flown_ends_json actual.now) }
{
    let members = [
        ("release", Scalar::Instant(actual.release())),
        ("report", Scalar::Instant(actual.report())),
    ];
    object_of(alloc, &members)
}
