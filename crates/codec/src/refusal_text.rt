//! Refusals in JSON. The definitions are in `specs/RefusalText.antt`.
//! Refusals of `do`: `tests/answers.py` and `tests/texts.py`. Wrong bodies: `must-fail/` and `must-fail-more/`.
ghost use Rattle.std.specs.Prelude.{◌≡◌, string_bytes, IfOk};
ghost use Rattle.serde_json.specs.View.{view};
ghost use Rattle.codec.specs.RefusalText as spec;

use command::{Exceedance, Refusal};
use duty::DutyFault;
use serde_json::Value;
use std::alloc::Global;
use stored_json::{CodecFault, Scalar, object_of, object_with_list};
use values::MemoryFault;

/// Writes a refusal of the book in JSON, as `{"name":"SeatTaken","refusal":6,"result":"refused"}`: that of 12 with its
/// list `limits`, each as `{"crew":"C1","section":"117.13(a)"}`, and that of 19 with its `period`.
#[tactic(auto, unfolding(crate::specs::RefusalText::refusal_json_text), using(crate::proofs::RefusalLemmas::refusal_no_float))]
pub fn refusal_to_json(alloc: Global, refusal: &Refusal) -> Result<String, MemoryFault>
    ensures { IfOk result (λ text. string_bytes text ≡ spec.refusal_json_text refusal.now) }
{
    let value = refusal_value(alloc, refusal)?;
    Ok(value.to_string(alloc)?)
}

/// Writes in JSON why a text isn't read: 16, 17 and 19 with their `period`, 18 and 31 with their `field`, 30 with its
/// `line`; out of memory as `{"name":"Memory","refusal":91,"result":"refused"}`.
#[tactic(auto, unfolding(crate::specs::RefusalText::fault_reply), using(crate::proofs::RefusalLemmas::fault_no_float))]
pub fn fault_to_json(alloc: Global, fault: CodecFault) -> Result<String, MemoryFault>
    ensures { IfOk result (λ text. string_bytes text ≡ spec.fault_reply fault) }
{
    let value = fault_value(alloc, fault)?;
    Ok(value.to_string(alloc)?)
}

fn refusal_value(alloc: Global, refusal: &Refusal) -> Result<Value, MemoryFault>
    ensures { IfOk result (λ value. view value ≡ spec.refusal_json refusal.now) }
{
    let (number, name) = (refusal.number(), refusal.name());
    match refusal {
        Refusal::Limits(broken) => limits_refusal(alloc, number, name, broken.as_slice()),
        Refusal::SegmentCount(period) => period_refusal(alloc, number, name, *period),
        _ => plain_refusal(alloc, number, name),
    }
}

fn fault_value(alloc: Global, fault: CodecFault) -> Result<Value, MemoryFault>
    ensures { IfOk result (λ value. view value ≡ spec.fault_json fault) }
{
    match fault {
        CodecFault::BadJson(field) => field_refusal(alloc, 31, "BadJson", field.name()),
        CodecFault::BadCsv(line) => line_refusal(alloc, 30, "BadCsv", line),
        CodecFault::Duty(fault) => duty_fault_value(alloc, fault),
        CodecFault::Memory => plain_refusal(alloc, 91, "Memory"),
    }
}

fn duty_fault_value(alloc: Global, fault: DutyFault) -> Result<Value, MemoryFault>
    ensures { IfOk result (λ value. view value ≡ spec.duty_fault_json fault) }
{
    match fault {
        DutyFault::BadTimes(period) => period_refusal(alloc, 16, "BadTimes", period),
        DutyFault::BadChain(period) => period_refusal(alloc, 17, "BadChain", period),
        DutyFault::BadField(field) => {
            let field = format!(in alloc; "{field}")?;
            field_refusal(alloc, 18, "BadField", field.as_str())
        }
        DutyFault::SegmentCount(period) => period_refusal(alloc, 19, "SegmentCount", period),
        DutyFault::Memory => plain_refusal(alloc, 91, "Memory"),
    }
}

fn plain_refusal(alloc: Global, number: u8, name: &str) -> Result<Value, MemoryFault>
    ensures { IfOk result (λ value. view value ≡ spec.plain_refusal number name.now) }
{
    let members = [
        ("result", Scalar::Text("refused")),
        ("refusal", Scalar::Number(u64::from(number))),
        ("name", Scalar::Text(name)),
    ];
    object_of(alloc, &members)
}

fn period_refusal(alloc: Global, number: u8, name: &str, period: u8) -> Result<Value, MemoryFault>
    ensures { IfOk result (λ value. view value ≡ spec.period_refusal number name.now period) }
{
    let members = [
        ("result", Scalar::Text("refused")),
        ("refusal", Scalar::Number(u64::from(number))),
        ("name", Scalar::Text(name)),
        ("period", Scalar::Number(u64::from(period))),
    ];
    object_of(alloc, &members)
}

fn field_refusal<'a>(
    alloc: Global,
    number: u8,
    name: &'a str,
    field: &'a str,
) -> Result<Value, MemoryFault>
    ensures { IfOk result (λ value. view value ≡ spec.field_refusal number name.now field.now) }
{
    let members = [
        ("result", Scalar::Text("refused")),
        ("refusal", Scalar::Number(u64::from(number))),
        ("name", Scalar::Text(name)),
        ("field", Scalar::Text(field)),
    ];
    object_of(alloc, &members)
}

fn line_refusal(alloc: Global, number: u8, name: &str, line: usize) -> Result<Value, MemoryFault>
    ensures { IfOk result (λ value. view value ≡ spec.line_refusal number name.now line) }
{
    let members = [
        ("result", Scalar::Text("refused")),
        ("refusal", Scalar::Number(u64::from(number))),
        ("name", Scalar::Text(name)),
        ("line", Scalar::Number(line as u64)),
    ];
    object_of(alloc, &members)
}

fn limits_refusal(
    alloc: Global,
    number: u8,
    name: &str,
    broken: &[Exceedance],
) -> Result<Value, MemoryFault>
    ensures { IfOk result (λ value. view value ≡ spec.limits_refusal number name.now broken.now) }
{
    let members = [
        ("result", Scalar::Text("refused")),
        ("refusal", Scalar::Number(u64::from(number))),
        ("name", Scalar::Text(name)),
    ];
    object_with_list(alloc, &members, "limits", broken)
}
