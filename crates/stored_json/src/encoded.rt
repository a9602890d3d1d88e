//! What has a value in JSON: the parts of commands and replies.
//! Kept texts: `tests/texts.py`. Wrong bodies: `must-fail/`.
ghost use Rattle.std.specs.Prelude.{◌≡◌, true, map, IfOk, OnOk};
ghost use Rattle.std.specs.List.{list_all};
ghost use Rattle.serde_json.specs.View.{view};
ghost use Rattle.stored_json.specs.Values.{array_of};

use crate::objects::{Scalar, object_of, object_with_list};
use command::Exceedance;
use duty::{BlockTimes, Fdp, Segment};
use serde_json::Value;
use std::alloc::Global;
use values::MemoryFault;

/// A part of a command or a reply.
pub trait Encoded {
    ghost use Rattle.std.specs.Prelude.{◌≡◌, Bool, true, IfOk, OnOk};
    ghost use Rattle.serde_json.specs.Data.{Data};
    ghost use Rattle.serde_json.specs.View.{view};

    ghost json: { Self → Data };

    ghost has_instants: { Self → Bool };

    /// Makes a value of JSON of the part.
    fn to_json(&self, alloc: Global) -> Result<Value, MemoryFault>
        ensures json { IfOk result (λ value. view value ≡ json self.now) }
        ensures instants { OnOk result (has_instants self.now ≡ true) };
}

/// Makes an array of the parts, in turn.
pub fn array<T: Encoded>(alloc: Global, parts: &[T]) -> Result<Value, MemoryFault>
    ensures json { IfOk result (λ value. view value ≡ array_of (map T.json parts.now)) }
    ensures instants { OnOk result (list_all T.has_instants parts.now ≡ true) }
{
    let mut values = Vec::new(alloc);
    for part in parts {
        values.push(part.to_json(alloc)?)?;
    }
    Ok(Value::Array(values))
}

impl Encoded for Segment {
    ghost use Rattle.stored_json.specs.KeptText.{segment_json};
    ghost use Rattle.stored_json.specs.Instants.{segment_has_instants};

    ghost json = { segment_json };

    ghost has_instants = { segment_has_instants };

    fn to_json(&self, alloc: Global) -> Result<Value, MemoryFault> {
        let members = [
            ("flight", Scalar::Text(self.flight.as_str())),
            ("from", Scalar::Text(self.from.as_str())),
            ("out", Scalar::instant(self.block_out)),
            ("to", Scalar::Text(self.to.as_str())),
            ("in", Scalar::instant(self.block_in)),
        ];
        object_of(alloc, &members)
    }
}

impl Encoded for BlockTimes {
    ghost use Rattle.stored_json.specs.KeptText.{times_json};
    ghost use Rattle.stored_json.specs.Instants.{times_have_instants};

    ghost json = { times_json };

    ghost has_instants = { times_have_instants };

    fn to_json(&self, alloc: Global) -> Result<Value, MemoryFault> {
        let BlockTimes {
            block_out,
            block_in,
        } = *self;
        let members = [
            ("out", Scalar::instant(block_out)),
            ("in", Scalar::instant(block_in)),
        ];
        object_of(alloc, &members)
    }
}

impl Encoded for Fdp {
    ghost use Rattle.stored_json.specs.KeptText.{period_json};
    ghost use Rattle.stored_json.specs.Instants.{period_has_instants};

    ghost json = { period_json };

    ghost has_instants = { period_has_instants };

    fn to_json(&self, alloc: Global) -> Result<Value, MemoryFault> {
        let times = [
            ("report", Scalar::instant(self.report)),
            ("release", Scalar::instant(self.release)),
        ];
        object_with_list(alloc, &times, "segments", self.segments.as_slice())
    }
}

impl Encoded for Exceedance {
    ghost use Rattle.std.specs.Prelude.{true};
    ghost use Rattle.stored_json.specs.ReplyText.{exceedance_json};

    ghost json = { exceedance_json };

    ghost has_instants = { λ _. true };

    fn to_json(&self, alloc: Global) -> Result<Value, MemoryFault> {
        let members = [
            ("crew", Scalar::Text(self.crew.as_str())),
            ("section", Scalar::Section(self.section)),
        ];
        object_of(alloc, &members)
    }
}
