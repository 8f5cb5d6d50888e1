// Tests of one call through worked steps.
#![tactic(auto)]

#[cfg(test)]
mod ends;
#[cfg(test)]
mod fixture;
#[cfg(test)]
mod hedging;
#[cfg(test)]
mod news;
#[cfg(test)]
mod plans;
#[cfg(test)]
mod reported;
#[cfg(test)]
mod retries;
#[cfg(test)]
mod sending;
#[cfg(test)]
mod tables;
