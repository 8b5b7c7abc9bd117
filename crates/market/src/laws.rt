// What is proved about the rules: the law over sessions, that the rules allow a message at most one ending, what the normal form of legs is, and what every ladder is, told by levels. No code: a theorem is proved where a contract names it.
ghost use Rattle.market.specs.LadderLaw.{EveryLadder};
ghost use Rattle.market.specs.Laws.{EverySession};
ghost use Rattle.market.specs.NormalForms.{EveryNormalForm};
ghost use Rattle.market.specs.Unique.{RulesDetermine};

pub fn sessions_are_sound()
    ensures { EverySession }
{}

pub fn rules_determine()
    ensures { RulesDetermine }
{}

pub fn legs_have_a_normal_form()
    ensures { EveryNormalForm }
{}

pub fn ladders_are_by_level()
    ensures { EveryLadder }
{}
