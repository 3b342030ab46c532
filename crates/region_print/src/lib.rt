// What a run prints, as text behind the text that stands in a buffer already: the lines of a listing, or the rows and
// pages of a sheet. No public function has a `requires`.
#![tactic(auto)]

mod buffer;
mod forms;

pub use buffer::{print_end, print_refusal, print_region};

// How a run is printed.
#[derive(Clone, Copy)]
pub enum Form {
    // A line for each region: document 01, 'The region program'.
    Listing,
    // Pages of rows, so many of which stand on the page that is open: document 02, U1.
    Sheet { rows: u32 },
}
