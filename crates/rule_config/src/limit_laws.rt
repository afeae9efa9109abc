//! Laws of a text that limits connections; each is the contract of an empty function, which no code calls.

ghost use Rattle.rule_config.specs.LimitExamples.{ExampleLaw};
ghost use Rattle.rule_config.specs.Text.{LimitTextLaw};

/// Where the first rules of a text's first frontend are `track-sc0 src` and `reject if { sc0_conn_cur gt L }`, and its own
/// table stores `conn_cur`, the rules that are served begin so, on that table, and no other of them tracks by sc0.
pub fn text()
    ensures { LimitTextLaw }
{}

/// The example of a limit of 20 connections is such a text, and has no fault: what is served of it limits to 20.
pub fn example()
    ensures { ExampleLaw }
{}
