// Tests of the public calls of the attempt layer: waits and tokens, the queue and timers, buffers, retries and hedges.
#![tactic(auto)]

#[cfg(test)]
mod a6_numbers_tests;
#[cfg(test)]
mod attempt_buffer_tests;
#[cfg(test)]
mod ends;
#[cfg(test)]
mod hedge_core_tests;
#[cfg(test)]
mod picker_gate_tests;
#[cfg(test)]
mod retry_core_tests;
