// Laws of Bool, in proofs/: tests taken apart and put together, and what a definition says at a test. Code joins its tests by `&`, which computes
// every one of them.
#![tactic(auto)]
