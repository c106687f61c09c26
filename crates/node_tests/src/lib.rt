//! Tables of tests over whole nodes and clusters. They stand in a crate of their own: a crate's tests are proved together with all of its functions.
#![tactic(auto)]

#[cfg(test)]
mod drives;
#[cfg(test)]
mod kept_versions;
#[cfg(test)]
mod letters;
#[cfg(test)]
mod node_of_three;
#[cfg(test)]
mod nodes;
#[cfg(test)]
mod validity;
