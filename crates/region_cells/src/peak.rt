// Document 02, U2: the peak of a region.
ghost use Rattle.std.specs.Prelude.{◌≡◌, ◌+◌, ◌-◌, ◌≤◌, ◌<◌, length, max};
ghost use Rattle.lists.specs.Loops.{along};
ghost use Rattle.activity_profile.specs.Peak.{leads, peak_index};

// The index of the peak of a region's cells: the first cell leads, even a NaN, and a later one only if strictly above the leader. Four
// cells have their turns at once: mostly none of them is above the leader, and one test tells. By index, since the leader is a place
// among all the cells, and a chunk of four does not say where it stands.
pub fn peak_index(cells: &[f64]) -> usize
    ensures { result ≡ peak_index cells.now }
{
    let fours = cells.len().saturating_sub(1) / 4;
    let mut leader = 0;
    for k in 0..fours {
        leader = after_four(cells, 4 * k + 1, leader);
    }
    after_turns(cells, 4 * fours + 1, cells.len(), leader)
}

// The leader once cells i to i + 3 had their turns. The cells, the place and the leader are arguments: a struct of them, with an invariant,
// would be made anew at each turn.
fn after_four(cells: &[f64], i: usize, leader: usize) -> usize
    requires { (leader < i) × (i + 4 ≤ length cells.now) }
    ensures { (result ≡ along (leads cells.now) i 4 leader) × (result < i + 4) }
{
    let x = cells[leader];
    let above = (x < cells[i]) | (x < cells[i + 1]) | (x < cells[i + 2]) | (x < cells[i + 3]);
    if above {
        return after_turns(cells, i, i + 4, leader);
    }
    leader
}

// The leader once the cells from `from` up to `to` had their turns one by one, `first` being the leader before them.
#[tactic(auto, using(crate::proofs::Fours::goes_on))]
fn after_turns(cells: &[f64], from: usize, to: usize, first: usize) -> usize
    requires { (first < from) × (to ≤ length cells.now) }
    ensures { (result ≡ along (leads cells.now) from (to - from) first) × (result < max from to) }
{
    let mut leader = first;
    for i in from..to {
        leader = after_turn(cells, i, leader);
    }
    leader
}

// The leader once cell i had its turn: that cell only if it is strictly above.
#[tactic(auto, using(crate::proofs::Fours::takes_lead, crate::proofs::Fours::leaves_lead))]
fn after_turn(cells: &[f64], i: usize, leader: usize) -> usize
    requires { (leader < i) × (i < length cells.now) }
    ensures { (result ≡ leads cells.now i leader) × (result < i + 1) }
{
    if cells[leader] < cells[i] {
        return i;
    }
    leader
}
