//! Runs that no table of texts can say, with ample memory: over devices that fail or watch, with bytes that are no text, cut
//! anywhere, at the limits, and over a machine for which memory is wanting.
#![tactic(auto)]

#[cfg(test)]
mod bounds;
#[cfg(test)]
mod devices;
#[cfg(test)]
mod faults;
#[cfg(test)]
mod journals;
#[cfg(test)]
mod runs;
#[cfg(test)]
mod sheets;
