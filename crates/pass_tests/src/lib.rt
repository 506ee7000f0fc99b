//! Examples and tables for the passes' public calls, from the text to the storage plan. They stand in a crate of
//! their own, so that no pass is proved a second time for its tests.
#![tactic(auto)]

#[cfg(test)]
mod expansion;
#[cfg(test)]
mod naming;
#[cfg(test)]
mod plain_solution;
#[cfg(test)]
mod plans;
#[cfg(test)]
mod reading;
#[cfg(test)]
mod renaming;
#[cfg(test)]
mod rules;
#[cfg(test)]
mod workers;
