// No code: the table that a host lends is the table of `channels_spec`, call by call.
#![tactic(auto)]
