// Laws only: every action to an ASP goes out as a message that reads.
#![tactic(auto)]
