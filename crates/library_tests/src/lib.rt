//! Tests of what the libraries answer that no line of the program asks for: distances by several workers, small tables beside
//! trying every plan, calls of networks, rosters, orders, problems, offices and books, the seconds of moments, and the texts of
//! codes. What lines and files ask for is tried by the scripts of `wagons_scripts`.
#![tactic(auto)]

#[cfg(test)]
mod tests;
