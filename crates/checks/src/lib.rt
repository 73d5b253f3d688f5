// The tests of the libraries: worked figures and the edges of every call.
#![tactic(auto)]

#[cfg(test)]
mod assuring;
#[cfg(test)]
mod capturing;
#[cfg(test)]
mod code;
#[cfg(test)]
mod converting;
#[cfg(test)]
mod keeping;
#[cfg(test)]
mod matrix;
#[cfg(test)]
mod reading;
#[cfg(test)]
mod reporting;
#[cfg(test)]
mod tree;
