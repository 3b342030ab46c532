// The normal density, the normalised kernel, and the width at which its entries become too small to keep. Filter size and
// sigma are two arguments, here and in resolve.rt: kernels of two sizes are made, of which the settings hold one.
ghost use Rattle.std.specs.Prelude.{◌≡◌, ◌-◌, ◌/◌, ◌≤◌, length, reverse};
ghost use Rattle.std.specs.List.{prefix_len};
ghost use Rattle.std.specs.Float.Ieee.{le};
ghost use Rattle.lists.specs.Each.{each};
ghost use Rattle.band_pass_kernel.specs.Kernel.{normal_distribution, densities, total, over, gaussian, adaptive_filter_size_of};

// The square root of two pi, as document 01 writes it.
const ROOT_TWO_PI: f64 = 2.5066282746310002;

// The normal density at x.
#[tactic(auto, unfolding(crate::specs::Kernel::normal_distribution))]
pub fn normal_distribution(mean: f64, sd: f64, x: f64) -> f64
    ensures { result ≡ normal_distribution mean sd x }
{
    elementary::exp(-((x - mean) * (x - mean)) / (2.0 * sd * sd)) / (sd * ROOT_TWO_PI)
}

// Writes the normalised kernel of a filter size over all of the lent slice; a whole kernel is 2 × filter_size + 1 long.
#[tactic(auto, unfolding(crate::specs::Kernel::gaussian))]
pub fn make_gaussian_kernel(kernel: &mut [f64], filter_size: u32, sigma: f64)
    ensures { kernel.new ≡ gaussian filter_size sigma (length kernel.old) }
{
    fill_densities(kernel, filter_size, sigma);
    let sum = sum_of(kernel);
    divide(kernel, sum);
}

// How many entries left of the middle, walking left, are at least `min_prob_to_keep` before the first that is not.
pub fn adaptive_filter_size(kernel: &[f64], min_prob_to_keep: f64) -> usize
    ensures { (result ≡ adaptive_filter_size_of kernel.now min_prob_to_keep)
        × (result ≤ (length kernel.now - 1) / 2) }
{
    let middle = kernel.len().saturating_sub(1) / 2;
    kept_at_the_end(&kernel[..middle], min_prob_to_keep)
}

// How many entries, walking left from the last, are at least `least` before the first that is not.
fn kept_at_the_end(entries: &[f64], least: f64) -> usize
    ensures { result ≡ prefix_len (λ x. le least x) (reverse entries.now) }
{
    entries
        .iter()
        .rev()
        .take_while(|entry| **entry >= least)
        .count()
}

// Entry i becomes the density at i, the mean being the filter size.
fn fill_densities(kernel: &mut [f64], filter_size: u32, sigma: f64)
    ensures { kernel.new ≡ densities filter_size sigma (length kernel.old) }
{
    for (i, entry) in kernel.iter_mut().enumerate() {
        let at = std::num::nearest_usize_to_f64(i);
        *entry = normal_distribution(f64::from(filter_size), sigma, at);
    }
}

// The sum of the entries from the left.
#[tactic(auto, unfolding(crate::specs::Kernel::total))]
fn sum_of(kernel: &[f64]) -> f64
    ensures { result ≡ total kernel.now }
{
    kernel.iter().fold(0.0, |sum, entry| sum + *entry)
}

// Every entry divided by the sum.
fn divide(kernel: &mut [f64], sum: f64)
    ensures { kernel.new ≡ each (over sum) kernel.old }
{
    for entry in kernel.iter_mut() {
        *entry /= sum;
    }
}
