// The tests that need code, of all crates: tables of what is judged at a point and of steps, and what neither a command nor a
// contract shows. They are in a crate of their own, since the gate proves a crate that has tests a second time, with them.
#![tactic(auto)]

#[cfg(test)]
mod alike;
#[cfg(test)]
mod applications;
#[cfg(test)]
mod asking;
#[cfg(test)]
mod board_draws;
#[cfg(test)]
mod built_applications;
#[cfg(test)]
mod built_guards;
#[cfg(test)]
mod built_notes;
#[cfg(test)]
mod passing;
#[cfg(test)]
mod points;
#[cfg(test)]
mod polled_machine;
#[cfg(test)]
mod polls_without_memory;
#[cfg(test)]
mod runs;
#[cfg(test)]
mod states;
#[cfg(test)]
mod steps;
#[cfg(test)]
mod table;
#[cfg(test)]
mod tables;
#[cfg(test)]
mod texts;
#[cfg(test)]
mod workers;
