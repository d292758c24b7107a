//! Devices, lines that are taken, and what is gathered and written, with ample memory: what no table of runs can say of texts.
#![tactic(auto)]

#[cfg(test)]
mod devices;
#[cfg(test)]
mod lines;
#[cfg(test)]
mod pieces;
#[cfg(test)]
mod writing;
