//! Instants as reports print them.
//! Worked texts: `tests/reports.py`.
ghost use Rattle.std.specs.Prelude.{◌≡◌, IfOk, string_bytes};
ghost use Rattle.time117.specs.Instant.{written};

use std::alloc::Global;
use time117::Minute;
use values::MemoryFault;

/// Writes an instant as `YYYY-MM-DDThh:mmZ`.
pub fn instant(alloc: Global, minute: Minute) -> Result<String, MemoryFault>
    ensures { IfOk result (λ text. string_bytes text ≡ written minute) }
{
    // The clause of this call says that the minute is in range: so what is written is UTF-8.
    let _in_range = minute.number();
    let mut text = Vec::new(alloc);
    minute.write(&mut text)?;
    Ok(String::from_utf8(text).unwrap())
}
