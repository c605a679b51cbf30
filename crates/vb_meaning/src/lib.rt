//! What a bound program means: threads that are stacks of what is still to be done (specs/Source.antt).
//!
//! The definitions have no code: the compiler's contract and the headline cite them.
//!
//! Proved: each ask of a program counts.
//!
//! Only tested: nothing.
//!
//! Assumed: the definitions of specs/, which say what a program means.
#![tactic(auto)]

ghost use Rattle.vb_bound.specs.Tree.{Tree};
ghost use Rattle.vb_meaning.specs.Source.{source_machine};
ghost use Rattle.vb_threads.specs.Stands.{CommitsAll};

/// Each ask of a program counts as a step of it.
pub fn commits_all()
    ensures { (t : Tree) → CommitsAll (source_machine t) }
{}
