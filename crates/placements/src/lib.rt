// Laws: the search of the rules lists all placements.
#![tactic(auto)]
