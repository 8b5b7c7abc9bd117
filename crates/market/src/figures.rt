// Worked figures, proved about the rules. No code: a theorem is proved where a contract names it.
ghost use Rattle.market.specs.Figures.{FiguresStand};

pub fn figures_stand()
    ensures { FiguresStand }
{}
