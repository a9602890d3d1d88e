//! Whether two values are the same. It takes no memory to see that.

use command::{Command, Instruction};
use roster::Roster;
use values::{OrdKey, OrdMap};

/// Whether two tables have the same values under the same keys.
pub fn are_tables_same<K: OrdKey, V: PartialEq>(one: &OrdMap<K, V>, other: &OrdMap<K, V>) -> bool {
    for ((key, value), (other_key, other_value)) in one.iter().zip(other.iter()) {
        if *key != *other_key || *value != *other_value {
            return false;
        }
    }
    one.len() == other.len()
}

/// Whether two rosters have the same zones at `HOME` and at the bases of the members of the first one.
fn are_bases_same(one: &Roster, other: &Roster) -> bool {
    for (_who, member) in one.crew.iter() {
        if one.bases.get(&member.base) != other.bases.get(&member.base) {
            return false;
        }
    }
    *one.bases.home() == *other.bases.home()
}

/// Whether two rosters have the same zone at the base that a command adds, where it adds one.
pub fn is_base_same(one: &Roster, other: &Roster, command: &Command) -> bool {
    match command.instruction() {
        Instruction::AddBase(id, _zone) => one.bases.get(id) == other.bases.get(id),
        _ => true,
    }
}

pub fn are_rosters_same(one: &Roster, other: &Roster) -> bool {
    are_bases_same(one, other)
        && are_tables_same(&one.crew, &other.crew)
        && are_tables_same(&one.pairings, &other.pairings)
        && are_tables_same(&one.grounds, &other.grounds)
        && are_tables_same(&one.outsides, &other.outsides)
        && are_tables_same(&one.exceedances, &other.exceedances)
        && are_tables_same(&one.requests, &other.requests)
}
