//! Tests of calls that no command reaches, and of the engines over devices that move few bytes a call or fail at each of their calls
//! in turn. `tests/examples` has what a command answers to a text.
#![tactic(auto)]

#[cfg(test)]
mod engines;
#[cfg(test)]
mod expectations;
#[cfg(test)]
mod formulas;
#[cfg(test)]
mod short_devices;
#[cfg(test)]
mod texts;
#[cfg(test)]
mod traces;
