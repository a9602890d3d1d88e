//! Replies to accepted commands, in JSON. The definitions are in `specs/ReplyText.antt`.
//! Kept texts: `tests/texts.py`. Wrong bodies: `must-fail-more/`.
ghost use Rattle.std.specs.Prelude.{◌≡◌, ◌⊎◌, string_bytes, Ok, Some, None, Err, IfOk, IfErr, OnOk};
ghost use Rattle.serde_json.specs.View.{view};
ghost use Rattle.stored_json.specs.ReplyText as spec;
ghost use Rattle.stored_json.specs.declared.fault.CodecFault.TheVariants.{Memory};
ghost use Rattle.stored_json.specs.declared.part.Unread.TheVariants as unread;

use crate::body::body;
use crate::fault::CodecFault;
use crate::field::JsonField;
use crate::objects::{Scalar, object_with_list};
use crate::part::{Unread, member, member_list};
use command::Reply;
use serde_json::Value;
use std::alloc::Global;
use values::{MemoryFault, Sequence, Text};

/// Writes the reply to an accepted command in JSON: `{"exceedances":[..],"result":"accepted"}`, each exceedance as
/// `{"crew":"C1","section":"117.13(a)"}`.
#[tactic(auto, unfolding(crate::specs::ReplyText::reply_text), using(crate::proofs::ReplyBack::reply_no_float, crate::proofs::ReplyBack::reply_back))]
pub fn reply_to_json(alloc: Global, reply: &Reply) -> Result<String, MemoryFault>
    ensures text { IfOk result (λ text. string_bytes text ≡ spec.reply_text reply.now) }
    ensures read_back { spec.read_reply (spec.reply_text reply.now) ≡ Ok reply.now }
{
    let value = reply_value(alloc, reply)?;
    Ok(value.to_string(alloc)?)
}

/// Makes a value of JSON of a reply.
pub fn reply_value(alloc: Global, reply: &Reply) -> Result<Value, MemoryFault>
    ensures { IfOk result (λ value. view value ≡ spec.reply_json reply.now) }
{
    let result = [("result", Scalar::Text("accepted"))];
    object_with_list(alloc, &result, "exceedances", reply.exceedances.as_slice())
}

/// Reads the accepted reply that a text is; any other text is refused as a whole.
#[tactic(auto, unfolding(crate::specs::ReplyText::read_reply))]
pub fn read_reply(alloc: Global, text: &str) -> Result<Reply, CodecFault>
    ensures reply { IfOk result (λ reply. spec.read_reply text.now ≡ Ok reply) }
    ensures refused { IfErr result
        (λ fault. (fault ≡ Memory) ⊎ (spec.read_reply text.now ≡ Err fault)) }
{
    let value = body(alloc, text)?;
    match read_accepted(alloc, &value) {
        Ok(reply) => Ok(reply),
        Err(Unread::Refused) => Err(CodecFault::BadJson(JsonField::Body)),
        Err(Unread::Memory) => Err(CodecFault::Memory),
    }
}

fn read_accepted(alloc: Global, value: &Value) -> Result<Reply, Unread>
    ensures read { IfOk result (λ reply. spec.read_accepted (view value.now) ≡ Some reply) }
    ensures refused { IfErr result
        (λ fault. (fault ≡ unread.Memory) ⊎ (spec.read_accepted (view value.now) ≡ None)) }
{
    let result: Text = member(alloc, value, "result")?;
    let exceedances = member_list(alloc, value, "exceedances")?;
    if result.as_str() != "accepted" {
        return Err(Unread::Refused);
    }
    Ok(Reply {
        exceedances: Sequence::new(exceedances),
    })
}
