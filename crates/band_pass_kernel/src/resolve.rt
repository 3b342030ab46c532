// The filter size and the kernel of a profile's settings, in the lent buffers.
ghost use Rattle.std.specs.Prelude.{◌≡◌, ◌≤◌, true, length, take, if◌then◌else◌, nat_eq};
ghost use Rattle.genome.specs.Refusals.{outcome_of};
ghost use Rattle.band_pass_kernel.specs.Kernel.{band, gaussian_kernel};
ghost use Rattle.band_pass_kernel.specs.Resolve.{in_range, has_room, accepted, filter_size_of, resolution};
ghost use Rattle.band_pass_kernel.specs.Resolve.{written_to, full_after, narrow_after, copied, copied_length};
ghost use Rattle.band_pass_kernel.specs.Facts.{FullKernel};

use crate::BandPassActivityProfileParams;
use crate::gaussian::{adaptive_filter_size, make_gaussian_kernel};
use genome::Refusal;

impl BandPassActivityProfileParams {
    // Document 01, 'Ranges'.
    pub const MAX_PROPAGATION_DISTANCE: u32 = 1_000_000;

    pub const MAX_FILTER_SIZE: u32 = 500;

    pub const MIN_SIGMA: f64 = 0.015625;

    pub const MAX_SIGMA: f64 = 4096.0;

    // The smallest entry that an adaptive filter keeps.
    pub const MIN_PROB_TO_KEEP_IN_FILTER: f64 = 0.00001;

    // Writes the full kernel to `full`, and the kernel to `narrow` where it is a narrower one, and answers its filter size.
    // Refuses a setting outside its range, then a buffer shorter than 2 × max_filter_size + 1; a refusal writes nothing.
    // Two slices and no struct: C lends them so, and the clauses full_after and narrow_after are of each.
    #[tactic(auto, using(std::proofs::lemmas::Bool::Decides::nat_tests), unfolding(crate::specs::Resolve::resolution, crate::specs::Resolve::accepted, crate::specs::Resolve::full_after, crate::specs::Resolve::narrow_after))]
    pub fn resolved_filter_and_kernel(
        self,
        full: &mut [f64],
        narrow: &mut [f64],
    ) -> Result<u32, Refusal>
        ensures result_value { outcome_of result ≡ resolution self (length full.old) (length narrow.old) }
        ensures full_after { full.new ≡ full_after self full.old (length narrow.old) }
        ensures narrow_after { narrow.new ≡ narrow_after self (length full.old) narrow.old }
    {
        if !self.in_range() {
            return Err(Refusal::Setting);
        }
        if !self.has_room(full.len(), narrow.len()) {
            return Err(Refusal::Buffer);
        }
        Ok(self.fill(full, narrow))
    }

    // The kernel that resolving left: the first 2 × filter_size + 1 entries of the buffer that holds it.
    pub fn normalized_kernel<'a>(
        self,
        filter_size: u32,
        full: &'a [f64],
        narrow: &'a [f64],
    ) -> &'a [f64]
        ensures { result.now
            ≡ take (band filter_size)
            (if nat_eq filter_size self.max_filter_size then full.now else narrow.now) }
    {
        if filter_size == self.max_filter_size {
            return kernel_in(full, filter_size);
        }
        kernel_in(narrow, filter_size)
    }

    // Whether every setting is in its range.
    #[tactic(auto, unfolding(crate::specs::Resolve::in_range))]
    fn in_range(self) -> bool
        ensures { result ≡ in_range self }
    {
        (self.max_prob_propagation_distance <= Self::MAX_PROPAGATION_DISTANCE)
            & numbers::within_f64(0.0, self.active_prob_threshold, 1.0)
            & (self.max_filter_size <= Self::MAX_FILTER_SIZE)
            & numbers::within_f64(Self::MIN_SIGMA, self.sigma, Self::MAX_SIGMA)
    }

    // Whether each buffer has room for the full kernel.
    #[tactic(auto, unfolding(crate::specs::Resolve::has_room))]
    fn has_room(self, full: usize, narrow: usize) -> bool
        ensures { result ≡ has_room self full narrow }
    {
        let n = band_of(self.max_filter_size);
        (n <= full) & (n <= narrow)
    }

    // Writes the kernels and answers the filter size.
    #[tactic(auto, using(std::proofs::lemmas::Bool::Decides::nat_tests), unfolding(crate::specs::Resolve::full_after, crate::specs::Resolve::narrow_after))]
    fn fill(self, full: &mut [f64], narrow: &mut [f64]) -> u32
        requires { accepted self (length full.old) (length narrow.old) ≡ true }
        ensures value { result ≡ filter_size_of self }
        ensures full_after { full.new ≡ full_after self full.old (length narrow.old) }
        ensures narrow_after { narrow.new ≡ narrow_after self (length full.old) narrow.old }
    {
        let widest = self.max_filter_size;
        write_kernel(full, widest, self.sigma);
        let filter_size = self.filter_size(full);
        if filter_size == widest {
            return filter_size;
        }
        write_kernel(narrow, filter_size, self.sigma);
        filter_size
    }

    // The filter size, from the buffer that starts with the full kernel.
    #[tactic(auto, unfolding(crate::specs::Resolve::filter_size_of))]
    fn filter_size(self, full: &[f64]) -> u32
        requires { FullKernel self full.now }
        ensures { (result ≡ filter_size_of self) × (result ≤ self.max_filter_size) }
    {
        if self.adaptive_filter_size {
            let kernel = kernel_in(full, self.max_filter_size);
            return adaptive_filter_size(kernel, Self::MIN_PROB_TO_KEEP_IN_FILTER) as u32;
        }
        self.max_filter_size
    }
}

// Writes the kernel of a filter size to the front of the buffer.
fn write_kernel(buffer: &mut [f64], filter_size: u32, sigma: f64)
    requires { band filter_size ≤ length buffer.old }
    ensures { buffer.new
        ≡ written_to buffer.old (band filter_size) (gaussian_kernel filter_size sigma) }
{
    let n = band_of(filter_size);
    make_gaussian_kernel(&mut buffer[..n], filter_size, sigma);
}

// The length of a kernel: 2F + 1.
fn band_of(filter_size: u32) -> usize
    ensures { result ≡ band filter_size }
{
    2 * (filter_size as usize) + 1
}

// The kernel of a filter size at the front of a buffer: its first 2F + 1 entries, or all where there are fewer.
pub fn kernel_in<'a>(buffer: &'a [f64], filter_size: u32) -> &'a [f64]
    ensures { result.now ≡ take (band filter_size) buffer.now }
{
    let n = band_of(filter_size).min(buffer.len());
    &buffer[..n]
}

// Copies a kernel to the front of a slice, and answers its length. A slice that is too short is left as it is, and the answer is 0:
// a number and no Option, since the clause `value` promises it. Entry by entry, and not by `copy_from_slice`: that is the C library's
// memmove, which the static library for makers asks of nobody.
#[tactic(auto, using(std::proofs::lemmas::Bool::Decides::nat_tests), unfolding(crate::specs::Resolve::copied))]
pub fn copy_kernel(to: &mut [f64], kernel: &[f64]) -> usize
    ensures value { result ≡ copied_length (length kernel.now) (length to.old) }
    ensures to_after { to.new ≡ copied kernel.now to.old }
{
    if to.len() < kernel.len() {
        return 0;
    }
    let n = kernel.len();
    for (i, entry) in to[..n].iter_mut().enumerate() {
        *entry = kernel[i];
    }
    n
}
