// The settings of a stream: their defaults, and what a setting's word does to them. No public function has a `requires`.
#![tactic(auto)]

mod settings;

// What kind 3 words set.
#[derive(Clone, Copy)]
pub struct StreamSettings {
    pub max_region_size: u32,
    pub min_region_size: u32,
    pub assembly_region_extension: u32,
    pub max_prob_propagation_distance: u32,
    pub max_filter_size: u32,
    pub contig_len: u32,
}

// The fields that kind 3 words name.
#[derive(Clone, Copy, Debug, PartialEq, Eq)]
pub enum StreamField {
    MaxRegionSize,
    MinRegionSize,
    AssemblyRegionExtension,
    MaxProbPropagationDistance,
    MaxFilterSize,
    ContigLen,
}
