// The plain profile (document 02, S-4): from a sheet's table one in which N stands directly on facts, and whether a sheet is in it.
#![tactic(auto)]

mod automata;
mod checking;
pub mod lent;
mod lines;

ghost use Rattle.std.specs.Prelude.{◌≡◌};
ghost use Rattle.profile.specs.Profile.{profile_outcome, profile_check, profile_answer, check_answer};

use aldlf::{Refusal, Table};
use lent::{is_in_profile_lent, to_profile_lent};
use packing::places::PLACES;
use packing::writing::pack;

// The table in the profile: old node k gives new nodes 2k (same meaning) and 2k+1 (its opposite), and a last line repeats the rule's.
// Refused: NotGiven, ProfileRoom.
pub fn to_profile(table: Table) -> Result<Table, Refusal>
    ensures { profile_answer result ≡ profile_outcome table }
{
    let mut numbers = [0u32; PLACES];
    pack(table, &mut numbers);
    to_profile_lent(&numbers)
}

// Whether each N of the sheet stands directly on a fact. Refused: NotGiven.
pub fn is_in_profile(table: Table) -> Result<bool, Refusal>
    ensures { check_answer result ≡ profile_check table }
{
    let mut numbers = [0u32; PLACES];
    pack(table, &mut numbers);
    is_in_profile_lent(&numbers)
}
