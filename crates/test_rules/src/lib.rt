//! What no proof of rules sees: worked rows, which try the definitions, written by hand by the words of HAProxy's manual. What rules
//! ask of the tables in turn; what a connection wants of them from its first moment to its last; and what is warned of as the
//! proxy starts, where `stickd check` isn't told what that rests on.
#![tactic(auto)]

#[cfg(test)]
mod lives;
#[cfg(test)]
mod setups;
#[cfg(test)]
mod verdicts;
#[cfg(test)]
mod warnings;
