//! Tests of whole turns: the text that the program prints, and the outcomes of direct broadcasts.
#![tactic(auto)]

#[cfg(test)]
mod outcomes;
#[cfg(test)]
mod printed;
