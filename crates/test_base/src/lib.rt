//! What no proof of the bases and tables sees. Outside vectors and worked rows, which try the definitions: keys, addresses, data,
//! rates, and tables event by event. Calls that take memory, each answered where there is plenty. Devices that fail, when what
//! is gathered is written, drops that are counted, and how a seed spreads keys.
#![tactic(auto)]

#[cfg(test)]
mod addresses;
#[cfg(test)]
mod asked;
#[cfg(test)]
mod calls;
#[cfg(test)]
mod data;
#[cfg(test)]
mod drops;
#[cfg(test)]
mod gathering;
#[cfg(test)]
mod keys;
#[cfg(test)]
mod rates;
#[cfg(test)]
mod spread;
#[cfg(test)]
mod streams;
#[cfg(test)]
mod worked;
