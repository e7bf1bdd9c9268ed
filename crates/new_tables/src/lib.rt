//! What is known of a new table of words and of the tokens of its writer, members and watchers, for the tests of what stands on it.
#![tactic(auto)]
