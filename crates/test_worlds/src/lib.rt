//! Tests of worlds through their public calls.
#![tactic(auto)]

#[cfg(test)]
mod mesh;
#[cfg(test)]
mod worlds;
