// Document 01, 'Profile record and cells': making a profile, the cells that it needs (document 02, U5), and when a record is
// broken. No public function has a `requires`.
#![tactic(auto)]

mod broken;
mod cells;
mod making;

pub use broken::is_broken;
pub use cells::cells_needed;
pub use making::new;
