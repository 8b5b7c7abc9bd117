// What is proved of the two rules for lists of any length. No code: a theorem is proved where a contract names it.
ghost use Rattle.rules.specs.AnyLength.{AtAnyLength};

pub fn rules_divide_at_any_length()
    ensures { AtAnyLength }
{}
