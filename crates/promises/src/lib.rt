// Laws: what the outer calls promise of files and node ids, on one page.
#![tactic(auto)]
