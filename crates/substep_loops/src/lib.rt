// The loop of a substep over the zones, where they lie: document 01, module 5.
#![tactic(auto)]

pub mod charging_alone;
pub mod losses;
pub mod with_water;

ghost use Rattle.std.specs.Prelude.{⊤, ◌≡◌, ◌+◌, ◌*◌, ◌≤◌, ◌<◌, List, length, get_or, set, replicate, Float};
ghost use Rattle.std.specs.Float.{nan};
ghost use Rattle.floats.specs.Constants.{zero};
ghost use Rattle.floats.specs.F64.{◌⊕◌};
ghost use Rattle.zone.specs.declared.Kilojoules.{Kilojoules};
ghost use Rattle.zone.specs.declared.Salt.{Salt};
ghost use Rattle.zone.specs.LentSalts.{lent_step, lent_salt};
ghost use Rattle.substep.specs.declared.Common.{Common};
ghost use Rattle.substep.specs.Substep.{zone_step, zones_after, progress_from, InPlace, substep_from};
ghost use Rattle.substep_loops.specs.Found.{AtEachZone};

use card::Card;
use floats::Sum2;
use substep::{Common, Outcome, SubstepInput, ZoneStep};
use zone::lent::LentSalts;
use zone::{Kilojoules, KilowattHours, Salt};

// A zone's part of a substep, in the mode or modes that a type has it for.
trait ZoneStepping: Copy {
    ghost common: { Self → Common };

    // what it needs to know of a zone's salt and of the charger's heat left
    ghost fits: { Self → Salt → Kilojoules → Type 0 };

    fn common(self) -> Common
        ensures { result ≡ common self };

    fn zone_step(
        self,
        salt: Salt,
        zone: f64,
        inlet: f64,
        left: Kilojoules,
        charged: KilowattHours,
    ) -> ZoneStep
        requires { fits self salt left }
        ensures { result ≡ zone_step (common self) salt zone inlet left charged };
}

// Where a substep's energies are kept, one for each zone, if at all.
pub trait Energies {
    // they are a list's, zone by zone
    ghost are: { Self → List Float → Type 0 };

    fn add(&mut self, j: usize, energy: Kilojoules)
        requires { j < 64 }
        ensures { (l : List Float) → are self.old l → are self.new (set l j (get_or l j nan ⊕ energy.0)) };
}

// The engine asks for their sum alone, and an array slows it.
#[derive(Clone, Copy)]
pub struct Unkept;

impl Energies for Unkept {
    ghost are = { λ s l. ⊤ };

    fn add(&mut self, j: usize, energy: Kilojoules) {}
}

// All zones in the mode's order, where they lie. It sums the energies and tests the zones as it goes, also where charging alone goes
// downward, since the energies there are 0. Places above the zones are neither read nor written.
// `taken` are the logarithms of the heat transfer; each zone's own are added. It is compiled for each stepping alone.
// It counts: salts and energies go by the index too, and an iterator over the zones would need a loop for each order.
fn over_zones<S: ZoneStepping, E: Energies, const APART: usize>(
    card: Card,
    stepping: S,
    salts: LentSalts<'_, APART>,
    input: SubstepInput,
    taken: u32,
    energies: &mut E,
    zones: &mut [f64; 64],
) -> Outcome
    requires { (card.layers ≤ salts.layers) × AtEachZone (S.fits stepping) (S.common stepping) (lent_salt salts) card.layers (progress_from input zones.old) }
    ensures { InPlace (substep_from card taken (zones_after (S.common stepping) (lent_salt salts.entry) card.layers card.layers (progress_from input zones.old))) result zones.new × (E.are energies.old (replicate 64 zero) → E.are energies.new (zones_after (S.common stepping) (lent_salt salts.entry) card.layers card.layers (progress_from input zones.old)).energies) }
{
    let n = card.layers as usize;
    let mode = stepping.common().mode;
    let first = salts.zone(0);
    let mut outlet = input.inlet;
    let mut left = substep::charger_heat(input);
    let mut charged = KilowattHours(0.0);
    let mut sum = Sum2 { s: 0.0, c: 0.0 };
    // equals 0 as long as each zone is finite
    let mut spread = 0.0;
    let mut logarithms = taken;
    for k in 0..n {
        let j = substep::zone_index(mode, n, k);
        let salt = own_salt(first, salts, j);
        let z = stepping.zone_step(salt, zones[j], outlet, left, charged);
        zones[j] = z.temperature;
        spread = floats::finite_step(spread, zones[j]);
        sum = floats::sum2_step(sum, 0.0 + z.energy.0);
        energies.add(j, z.energy);
        outlet = z.outlet;
        left = z.left;
        charged = z.charged;
        logarithms = logarithms + z.logarithms;
    }
    let delivered = Kilojoules(sum.s + sum.c);
    let fault = substep::progress_fault(spread == 0.0, outlet, delivered, charged);
    Outcome {
        outlet,
        delivered,
        charged,
        fault,
        logarithms,
    }
}

// The salt of zone j. `first` is zone 0's, read before the loop: where one salt serves all, the compiler keeps what it works out of it.
#[tactic(auto, using(zone::proofs::Salts::one_salt))]
fn own_salt<const APART: usize>(first: Salt, salts: LentSalts<'_, APART>, j: usize) -> Salt
    requires { (j * lent_step salts + 5 ≤ length salts.figures.now) × (first ≡ lent_salt salts 0) }
    ensures { result ≡ lent_salt salts.entry j }
{
    if salts.stride() == 0 {
        return first;
    }
    salts.zone(j)
}
