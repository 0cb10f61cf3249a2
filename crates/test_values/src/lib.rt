//! Tests of values, of geometry and of lines of JSON through their public calls, a module for each
//! subject; and of the budgets of memory on which other tests stand.
#![tactic(auto)]

#[cfg(test)]
mod equality;
#[cfg(test)]
mod geometry;
#[cfg(test)]
mod json;
#[cfg(test)]
mod packet;
#[cfg(test)]
mod shortage;
#[cfg(test)]
mod table;
#[cfg(test)]
mod values;
