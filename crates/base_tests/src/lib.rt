// Tests of the public calls of the base layer: plain data, the gates to input and output, the ledger of attempts.
#![tactic(auto)]

#[cfg(test)]
mod attempt_ledger_tests;
#[cfg(test)]
mod gate_io_tests;
#[cfg(test)]
mod gate_link_tests;
#[cfg(test)]
mod grpc_base_metadata;
#[cfg(test)]
mod grpc_base_values;
#[cfg(test)]
mod turn_lock_tests;
