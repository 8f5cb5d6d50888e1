// Tests of the public calls of links and of the news of attempts.
#![tactic(auto)]

#[cfg(test)]
mod grpc_link_tests;
#[cfg(test)]
mod h2_link_tests;
#[cfg(test)]
mod link_run;
#[cfg(test)]
mod long_tests;
#[cfg(test)]
mod reported;
#[cfg(test)]
mod vector_tests;
