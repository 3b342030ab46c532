// The band-pass kernel: document 01, 'Kernel', after the Rust's activity_profile.rs. The caller lends two buffers; the full kernel is
// written to the first and a narrower one, where there is one, to the second. No public function has a `requires`.
#![tactic(auto)]

mod gaussian;
mod resolve;

pub use gaussian::{adaptive_filter_size, make_gaussian_kernel, normal_distribution};
pub use resolve::{copy_kernel, kernel_in};

// The settings of a band-pass profile.
#[derive(Clone, Copy)]
pub struct BandPassActivityProfileParams {
    pub max_prob_propagation_distance: u32,
    pub active_prob_threshold: f64,
    pub max_filter_size: u32,
    pub sigma: f64,
    pub adaptive_filter_size: bool,
}
