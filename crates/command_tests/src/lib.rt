//! Worked examples of whole commands, over a shelf and a console in memory. They stand in a crate of their own,
//! so that the commands are not proved a second time for them.
#![tactic(auto)]

#[cfg(test)]
mod commands;
