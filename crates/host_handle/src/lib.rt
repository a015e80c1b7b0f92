// A builder's counts and handles, as the calls on words and on bytes take and give them.
#![tactic(auto)]

pub mod handles;
