//! What holds over a terminal's life, said above the single steps. Each function's contract is the law that it names.
ghost use Rattle.terminal.specs.Laws.{ResendsFirstBytes, NumbersNeverFall, OneCallASlot, StaleRepliesTeachNothing, GivenUpStaysShut};

pub fn resends_first_bytes()
    ensures { ResendsFirstBytes }
{}

pub fn numbers_never_fall()
    ensures { NumbersNeverFall }
{}

pub fn one_call_a_slot()
    ensures { OneCallASlot }
{}

pub fn stale_replies_teach_nothing()
    ensures { StaleRepliesTeachNothing }
{}

pub fn given_up_stays_shut()
    ensures { GivenUpStaysShut }
{}
