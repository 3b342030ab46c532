// Walks over the cells of a region: where it ends, and its peak. Each looks at four cells at a time, where one test tells that nothing
// changes among them. No public function has a `requires`.
#![tactic(auto)]

mod boundary;
mod peak;

pub use boundary::find_first_activity_boundary;
pub use peak::peak_index;
