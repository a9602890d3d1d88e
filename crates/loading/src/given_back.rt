//! The roster to which the records of a table were added, given back: so each table's function ends. Wrong bodies: `must-fail-more/`.

ghost use Rattle.std.specs.Prelude.{◌≡◌, Err, IfErr, Ok, OnOk};

use entries::LoadFault;
use roster::Roster;

/// Gives the roster back if all was added, and otherwise the fault.
pub(crate) fn given_back(roster: Roster, done: Result<(), LoadFault>) -> Result<Roster, LoadFault>
    ensures ok { OnOk done (result ≡ Ok roster) }
    ensures err { IfErr done (λ fault. result ≡ Err fault) }
{
    done?;
    Ok(roster)
}
