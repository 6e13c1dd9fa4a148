//! Tests of memory off the chip and of what guards it.
#![tactic(auto)]

#[cfg(test)]
mod entered_memory;
#[cfg(test)]
mod lines;
#[cfg(test)]
mod pads;
#[cfg(test)]
mod plain_memory;
#[cfg(test)]
mod scripts;
#[cfg(test)]
mod strings;
#[cfg(test)]
mod untrusted_phases;
