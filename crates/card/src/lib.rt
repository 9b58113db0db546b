// The card: document 01's fields and their ranges, and whether 1 to 4 accept it; document 02's services and flag.
#![tactic(auto)]

pub mod extension;
pub mod pcm;
pub mod ranges;
pub mod services;
pub mod verdict;
pub mod version;

ghost use Rattle.std.specs.Prelude.{◌≡◌, eqb};
ghost use Rattle.card.specs.Card.{counts_in_range, times_in_range, temperatures_in_range, capacities_in_range, exchanger_in_range, powers_in_range, card_in_range, card_refusal};

#[repr(C)]
#[derive(Clone, Copy)]
pub struct Card {
    // at most 64 in a card that is accepted. C hands in any byte, so functions ask for it: a type of its own would ask more of callers.
    pub layers: u8,
    pub units: u16,
    // 1 where the battery is charged during a demand; C's byte, of which 1 refuses all but 0 and 1
    pub simultaneous: u8,
    // substeps that one call may take
    pub budget: u16,
    // seconds
    pub substep: f64,
    // hours
    pub timestep: f64,
    // °C: initial inlet, estimated outlet, max, ref, lower and upper end of the melting range
    pub inlet: f64,
    pub outlet: f64,
    pub max: f64,
    pub reference: f64,
    pub lower: f64,
    pub upper: f64,
    // kJ/K of all layers
    pub below: f64,
    pub during: f64,
    pub above: f64,
    // m/s at 1 l/min, mm
    pub velocity: f64,
    pub diameter: f64,
    pub a: f64,
    pub b: f64,
    // l/min
    pub flow: f64,
    // kW
    pub losses: f64,
    // °C of a fresh battery
    pub start: f64,
    // kW, 0: no charger
    pub power: f64,
}

// What HeatBatteryPcm::new derives from a card, besides its salt and the stored maximum. It goes beside its card, as in the definitions.
#[derive(Clone, Copy)]
pub struct HeatBatteryPcm {
    // temperature difference of the rated losses
    pub rated: f64,
    // metres
    pub diameter: f64,
}

// Every count in its range.
#[tactic(auto, unfolding(crate::specs::Card::counts_in_range))]
fn counts_in_range(card: Card) -> bool
    ensures { result ≡ counts_in_range card }
{
    let budget = (1 <= card.budget) & (card.budget <= 65535);
    (1 <= card.layers)
        & (card.layers <= 64)
        & (1 <= card.units)
        & (card.units <= 1000)
        & (card.simultaneous <= 1)
        & budget
}

#[tactic(auto, unfolding(crate::specs::Card::times_in_range))]
fn times_in_range(card: Card) -> bool
    ensures { result ≡ times_in_range card }
{
    crate::ranges::is_substep(card.substep) & crate::ranges::is_timestep(card.timestep)
}

#[tactic(auto, unfolding(crate::specs::Card::temperatures_in_range))]
fn temperatures_in_range(card: Card) -> bool
    ensures { result ≡ temperatures_in_range card }
{
    let salt = crate::ranges::is_temperature(card.lower)
        & crate::ranges::is_temperature(card.upper)
        & crate::ranges::is_temperature(card.start);
    crate::ranges::is_temperature(card.inlet)
        & crate::ranges::is_temperature(card.outlet)
        & crate::ranges::is_temperature(card.max)
        & crate::ranges::is_temperature(card.reference)
        & salt
}

#[tactic(auto, unfolding(crate::specs::Card::capacities_in_range))]
fn capacities_in_range(card: Card) -> bool
    ensures { result ≡ capacities_in_range card }
{
    crate::ranges::is_capacity(card.below)
        & crate::ranges::is_capacity(card.during)
        & crate::ranges::is_capacity(card.above)
}

#[tactic(auto, unfolding(crate::specs::Card::exchanger_in_range))]
fn exchanger_in_range(card: Card) -> bool
    ensures { result ≡ exchanger_in_range card }
{
    crate::ranges::is_velocity(card.velocity)
        & crate::ranges::is_diameter(card.diameter)
        & crate::ranges::is_coefficient(card.a)
        & crate::ranges::is_coefficient(card.b)
        & crate::ranges::is_flow(card.flow)
}

#[tactic(auto, unfolding(crate::specs::Card::powers_in_range))]
fn powers_in_range(card: Card) -> bool
    ensures { result ≡ powers_in_range card }
{
    crate::ranges::is_power(card.losses) & crate::ranges::is_power(card.power)
}

// In place in both of its callers: a call on the caller's own record pays for each call in `is_accepted`.
#[inline(always)]
#[tactic(auto, unfolding(crate::specs::Card::card_in_range))]
pub fn card_in_range(card: Card) -> bool
    ensures { result ≡ card_in_range card }
{
    counts_in_range(card)
        & times_in_range(card)
        & temperatures_in_range(card)
        & capacities_in_range(card)
        & exchanger_in_range(card)
        & powers_in_range(card)
}

// Whether 1 to 4 accept the card, as one test, for calls on the caller's own record: its one caller is `battery::is_accepted`, in which it is compiled in
// place, as `verdict::check` is not.
#[tactic(auto, using(crate::proofs::OneTest::accepted_is))]
pub fn is_accepted(version: u8, card: Card) -> bool
    ensures { result ≡ eqb (card_refusal version card) 0 }
{
    let ranges = card_in_range(card);
    // Within the ranges of temperatures, above ref and not nearly equal to it is a difference above the tolerance.
    let stores = (floats::TEMP_AMBIENT_RATED_LOSSES_C < card.max)
        & (floats::TOLERANCE < card.max - card.reference);
    ranges & ((card.lower <= card.upper) & stores)
}
