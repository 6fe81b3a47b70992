//! The version of the program.

/// The version's number, the first digits of the SHA-256 of the program's sources, and the kit that proves them. `tools/version`
/// writes the last two.
pub(crate) const VERSION: &str = "0.1.0 (sources cf6211bd7085, rattle-kit-13f)";
