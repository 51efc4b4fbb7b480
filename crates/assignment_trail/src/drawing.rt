//! Numbers that look random, and are the same in each run.
//!
//! Of the searches that share what they learn, all but the first draw activities of variables by them, and one first values. The seed is the number of the
//! search, so that each decides differently. A number rests on the seed and the variable alone, so there is no state to keep.

use proof_log::codes::Variable;

/// Returns a number for this variable, as the seed has it. All its 32 bits are mixed, so a caller may take any of them, or a remainder.
pub(crate) fn drawn(seed: u32, variable: Variable) -> u32 {
    let mut mixed = variable.number().wrapping_add(1).wrapping_mul(0x9e37_79b1)
        ^ seed.wrapping_add(1).wrapping_mul(0x85eb_ca6b);
    mixed = (mixed ^ (mixed >> 15)).wrapping_mul(0x2c1b_3c6d);
    mixed = (mixed ^ (mixed >> 12)).wrapping_mul(0x297a_2d39);
    mixed ^ (mixed >> 15)
}
