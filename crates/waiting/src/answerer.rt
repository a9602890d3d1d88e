//! What answers the requests of connections.
use http_exchange::{ChannelFault, Served};
use std::alloc::Global;

/// What answers a request by what is kept, which it may change.
pub trait Answerer<K> {
    ghost use Rattle.std.specs.Prelude.{◌≡◌, [], ℕ, Bool, List, Result};
    ghost use Rattle.http_exchange.specs.declared.exchanges.Served.{Served};
    ghost use Rattle.http_exchange.specs.declared.sending.ChannelFault.{ChannelFault};

    // what is kept was so before, and so after these bytes of a request were answered by these bytes, of which this came
    ghost answers: { K → K → List ℕ → List ℕ → Result Served ChannelFault → Type 0 };

    // whether what is kept has failed, so that nothing more is to be asked
    ghost fails: { K → Bool };

    /// Answers what these bytes ask, and writes the response.
    fn answer(
        &self,
        alloc: Global,
        kept: &mut K,
        request: &[u8],
        response: &mut Vec<u8>,
    ) -> Result<Served, ChannelFault>
        requires { response.old.items ≡ [] }
        ensures { answers kept.old kept.new request.now response.new.items result };

    /// Returns whether what is kept has failed.
    fn has_failed(&self, kept: &K) -> bool
        ensures { result ≡ fails kept.now };
}
