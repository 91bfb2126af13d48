// The two calls by a table that is lent as numbers. A room of the checker: its other crates call it, users do not.
ghost use Rattle.std.specs.Prelude.{◌≡◌};
ghost use Rattle.aldlf.specs.Refusals.{asked_number};
ghost use Rattle.aldlf.specs.declared.Table.{Table};
ghost use Rattle.packing.specs.Packed.{Packed};
ghost use Rattle.profile.specs.Profile.{profile_of, profile_number, profile_outcome, profile_check, profile_answer, check_answer};
ghost use Rattle.profile.specs.Room.{ProfileRoom};

use super::automata::{kept_automata, kept_edges};
use super::checking::in_profile;
use super::lines::profile_lines;
use aldlf::{Refusal, Table, Used};
use packing::places::used_in;

// The table in the profile, as `to_profile` gives it.
pub fn to_profile_lent(numbers: &[u32]) -> Result<Table, Refusal>
    requires { (t : Table) × Packed t numbers.now }
    ensures { (t : Table) → Packed t numbers.now → profile_answer result ≡ profile_outcome t }
{
    profile_question(numbers)?;
    Ok(profile_of(numbers))
}

// Whether the sheet is in the profile, as `is_in_profile` says it.
pub fn is_in_profile_lent(numbers: &[u32]) -> Result<bool, Refusal>
    requires { (t : Table) × Packed t numbers.now }
    ensures { (t : Table) → Packed t numbers.now → check_answer result ≡ profile_check t }
{
    if sheet::is_given_packed(numbers) {
        Ok(in_profile(numbers))
    } else {
        Err(Refusal::NotGiven)
    }
}

// Questions 31 and 42: the first that gets a no.
fn profile_question(numbers: &[u32]) -> Result<(), Refusal>
    requires { (t : Table) × Packed t numbers.now }
    ensures { (t : Table) → Packed t numbers.now → asked_number result ≡ profile_number t }
{
    if !sheet::is_given_packed(numbers) {
        return Err(Refusal::NotGiven);
    }
    if aldlf::NODES < 2 * usize::from(used_in(numbers).nodes) + 1 {
        return Err(Refusal::ProfileRoom);
    }
    Ok(())
}

// The table in the profile, of a table that has room for it.
fn profile_of(numbers: &[u32]) -> Table
    requires { (t : Table) × ProfileRoom t numbers.now }
    ensures { (t : Table) → ProfileRoom t numbers.now → result ≡ profile_of t }
{
    let used = used_in(numbers);
    Table {
        nodes: profile_lines(numbers),
        automata: kept_automata(numbers),
        edges: kept_edges(numbers),
        used: Used {
            nodes: 2 * used.nodes + 1,
            ..used
        },
    }
}
