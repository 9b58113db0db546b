// The salts of a battery's zones, as the code is lent them. That a card's layers are at most theirs is a clause of those who have both: battery::lent says
// why no struct.
ghost use Rattle.std.specs.Prelude.{◌≡◌, ◌+◌, ◌*◌, ◌≤◌, length};
ghost use Rattle.zone.specs.Lent.{Salted, step_by};

use crate::Salt;

// Five figures for each salt, those of zone j from j × the step on: one salt serves all zones where the step is 0, each has its own where it is 5. With APART 0
// the step is 0, whatever the field holds, so that what zones of one salt share is worked out once; with any other it is the field. A caller who knows the step
// when the code is compiled gives it as both. Numbers and no `Salt`s: document 02, Ten, has five for each zone.
#[derive(Clone, Copy)]
pub struct LentSalts<'a, const APART: usize> {
    pub figures: &'a [f64],
    pub step: usize,
    // how many zones have a salt here
    pub layers: u8,
    pub ghost salted: { (layers ≤ 64) × Salted figures.now (step_by APART step) layers },
}

impl<const APART: usize> LentSalts<'_, APART> {
    ghost use Rattle.zone.specs.LentSalts.{lent_step, lent_salt};

    // The step from a zone's salt to the next one's.
    #[tactic(auto, unfolding(crate::specs::Lent::step_by))]
    pub fn stride(self) -> usize
        ensures { result ≡ lent_step self.entry }
    {
        if APART == 0 {
            return 0;
        }
        self.step
    }

    // The salt of zone j.
    #[tactic(auto, unfolding(crate::specs::Lent::zone_salt))]
    pub fn zone(self, j: usize) -> Salt
        requires { j * lent_step self + 5 ≤ length self.figures.now }
        ensures { result ≡ lent_salt self.entry j }
    {
        let at = j * self.stride();
        Salt {
            lower: self.figures[at],
            upper: self.figures[at + 1],
            below: self.figures[at + 2],
            during: self.figures[at + 3],
            above: self.figures[at + 4],
        }
    }
}
