//! Tests of runs: whole commands, by one worker and by several.
#![tactic(auto)]

#[cfg(test)]
mod batches;
#[cfg(test)]
mod budgets;
#[cfg(test)]
mod commands;
#[cfg(test)]
mod drawn;
#[cfg(test)]
mod faults;
#[cfg(test)]
mod models;
#[cfg(test)]
mod replies;
#[cfg(test)]
mod rules;
#[cfg(test)]
mod waits;
#[cfg(test)]
mod workers;
