// The tests of the script crates' public calls; nothing else stands here.
#![tactic(auto)]

#[cfg(test)]
mod script_fields_tests;
#[cfg(test)]
mod script_input_tests;
#[cfg(test)]
mod script_limits_tests;
#[cfg(test)]
mod script_lines_tests;
#[cfg(test)]
mod script_text_tests;
