// Document 01, 'Popping': the end of a region.
ghost use Rattle.std.specs.Prelude.{◌≡◌, ◌+◌, ◌≤◌, not, length, take, drop};
ghost use Rattle.std.specs.List.{prefix_len};
ghost use Rattle.lists.specs.Loops.{first_at};
ghost use Rattle.activity_profile.specs.Pop.{other_side};
ghost use Rattle.region_cells.specs.Fours.{one_of_four, other_at};

// The side of the threshold that a region is on.
#[derive(Clone, Copy)]
struct Side {
    threshold: f64,
    active: bool,
}

impl Side {
    // Whether a cell is on the other side.
    fn is_other(self, x: f64) -> bool
        ensures { result ≡ other_side self.threshold self.active x }
    {
        (x > self.threshold) != self.active
    }

    // Whether one of four cells is on the other side. All four are compared, and one test tells.
    fn leaves_in_four(self, four: &[f64]) -> bool
        requires { length four.now ≡ 4 }
        ensures { result ≡ one_of_four (other_at self.threshold self.active four.now) 0 }
    {
        self.is_other(four[0])
            | self.is_other(four[1])
            | self.is_other(four[2])
            | self.is_other(four[3])
    }

    // How many cells are on this side, four at a time: none of them is the first on the other.
    fn fours(self, cells: &[f64]) -> usize
        ensures { (result ≤ length cells.now)
            × (result + first_at (other_side self.threshold self.active) (drop result cells.now)
            ≡ first_at (other_side self.threshold self.active) cells.now) }
    {
        4 * cells
            .chunks_exact(4)
            .take_while(|four| !self.leaves_in_four(four))
            .count()
    }

    // How many cells are on this side before the first on the other.
    fn run(self, cells: &[f64]) -> usize
        ensures { result ≡ prefix_len (λ x. not (other_side self.threshold self.active x)) cells.now }
    {
        cells.iter().take_while(|x| !self.is_other(**x)).count()
    }
}

// The first cell on the other side, or max, or the count.
pub fn find_first_activity_boundary(
    states: &[f64],
    threshold: f64,
    active: bool,
    most: usize,
) -> usize
    ensures { (result ≡ first_at (other_side threshold active) (take most states.now))
        × (result ≤ length states.now) }
{
    let side = Side { threshold, active };
    let kept = &states[..most.min(states.len())];
    let from = side.fours(kept);
    from + side.run(&kept[from..])
}
