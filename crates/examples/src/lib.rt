//! Worked examples of the written rules. They stand apart from the code, since computing them takes a while.
#![tactic(auto)]

ghost use Rattle.examples.specs.Cases.{Cases};

/// The examples hold, all of them at once.
pub fn worked_examples()
    ensures { Cases }
{}
