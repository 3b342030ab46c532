// The static library that makers link: each function of region_picker as a C function of the same name, with the same promises. A
// slice is a pointer and a length in C. part/region_picker.h says it in a maker's words.
#![tactic(auto)]

mod profile;
mod scoring;
