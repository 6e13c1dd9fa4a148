//! The core of the processor: its registers, the memory that it runs on, and one step of it.
//! A step is generic over the memory, and is proved once for each memory that keeps the contract of `Memory`.
#![tactic(auto)]

mod effect;
mod flat_memory;
mod laws;
mod memory;
mod port;
mod processor;
mod stepping;

pub use effect::Effect;
pub use flat_memory::FlatMemory;
pub use laws::{
    Carries, flat_is_ideal, ideal_runs, ideal_states, ideal_steps, own_memory_is_ideal,
    runs_loosen, sound_images, steps_carry, steps_leave_fewer,
};
pub use memory::{Memory, Stop, Why};
pub use port::Port;
pub use processor::Core;
pub use stepping::{StepEnd, step};
