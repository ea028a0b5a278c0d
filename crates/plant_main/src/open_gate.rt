//! The gate of the program.

use durable_core::Answer;
use plc_threads::{Gate, Machine};
use st_types::Activation;

/// Lets every worker pass.
pub struct OpenGate;

impl Gate for OpenGate {
    fn between(&self, _resource: usize, _activation: Activation, _machine: Machine) {}

    fn answered(&self, _resource: usize, _activation: Activation, _answer: Answer) {}
}
