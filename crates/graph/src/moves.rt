// One edge between two configurations, backward for the search and forward for the walk. A configuration is numbered entry times states plus state.
ghost use Rattle.std.specs.Prelude.{◌≡◌, ◌+◌, ◌*◌, ◌/◌, ◌%◌, ◌≤◌, ◌<◌, length, IfSome, unwrap_or};
ghost use Rattle.aldlf.specs.Constants.{node_limit, state_limit, entry_limit};
ghost use Rattle.reach.specs.Marks.{paired};
ghost use Rattle.graph.specs.Graph.{far};
ghost use Rattle.graph.specs.Configurations.{entry_before, entry_or_far, prior_of, turned_of, arrival_of, reciprocal_of, EdgeFits};

use aldlf::{Edge, Entry, State};

// A configuration by its two numbers.
#[derive(Clone, Copy)]
pub struct Configuration {
    pub state: State,
    pub entry: Entry,
}

// What stands for the count of states in `numbered`.
pub fn reciprocal(states: u16) -> u32
    requires { (0 < states) × (states ≤ state_limit) }
    ensures { result ≡ reciprocal_of states }
{
    262144 / (states as u32) + 1
}

// The configuration of a number. A multiplication by the reciprocal stands in for the division, which would take longer than the rest of a step.
pub fn numbered(c: u16, states: u16, reciprocal: u32) -> Configuration
    requires { (c < 8192) × (0 < states) × (states ≤ state_limit) × (reciprocal ≡ reciprocal_of states) }
    ensures { (result.state.0 ≡ c % states) × (result.entry.0 ≡ c / states) }
{
    let j = ((c as u32) * reciprocal / 262144) as u16;
    Configuration {
        state: State((c - j * states) as u8),
        entry: Entry(j),
    }
}

// The entry that an edge of this direction leaves to arrive at j.
fn entry_before(dir: u8, j: Entry, n: u16) -> Option<Entry>
    requires { (j.0 < n) × (n ≤ entry_limit) }
    ensures { (entry_or_far result ≡ entry_before dir j.0 n) × IfSome result (λ i. i.0 < n) }
{
    match dir {
        0 => Some(j),
        1 => Some(Entry(j.0.checked_sub(1)?)),
        _ if j.0 + 1 < n => Some(Entry(j.0 + 1)),
        _ => None,
    }
}

// The configuration from which e leads to its state at entry j.
pub fn prior(words: &[u64], e: Edge, states: u8, j: Entry) -> Option<u16>
    requires edge_fits { EdgeFits states e }
    requires states_le_state_limit { (states ≤ state_limit) × (length (paired words.now) ≤ entry_limit) × (j.0 < length (paired words.now)) }
    ensures { (unwrap_or result far ≡ prior_of (paired words.now) e states e.to.0 j.0) × IfSome result (λ c. c < length (paired words.now) * states) }
{
    let before = entry_before(e.dir, j, (words.len() / 2) as u16)?;
    if !reach::verdict(words, before.0 as usize, e.test) {
        return None;
    }
    Some(before.0 * (states as u16) + (e.from.0 as u16))
}

// Ahead for back, and back for ahead.
fn turned(dir: u8) -> u8
    requires { dir ≤ 2 }
    ensures { result ≡ turned_of dir }
{
    if dir == 0 { 0 } else { 3 - dir }
}

// The entry at which e arrives from entry i.
pub fn arrival(words: &[u64], e: Edge, i: Entry) -> Option<Entry>
    requires { (e.test.0 < node_limit) × (e.dir ≤ 2) × (length (paired words.now) ≤ entry_limit) × (i.0 < length (paired words.now)) }
    ensures { (entry_or_far result ≡ arrival_of (paired words.now) e i.0) × IfSome result (λ j. j.0 < length (paired words.now)) }
{
    if !reach::verdict(words, i.0 as usize, e.test) {
        return None;
    }
    entry_before(turned(e.dir), i, (words.len() / 2) as u16)
}
