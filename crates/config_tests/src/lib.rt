// Tests of the public calls of the crates that read a service config.
#![tactic(auto)]

#[cfg(test)]
mod config_values_tests;
#[cfg(test)]
mod json_text_tests;
#[cfg(test)]
mod resolver_core_tests;
#[cfg(test)]
mod service_config_choice_tests;
#[cfg(test)]
mod service_config_tests;
