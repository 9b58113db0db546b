// Document 01's ranges, both ends in, each under what it is of.
// Nine functions, not nine values of a struct of two ends: contracts cite the nine names of the definitions, and each is one line over `within`.
ghost use Rattle.std.specs.Prelude.{◌≡◌};
ghost use Rattle.card.specs.Ranges.{within as within_of, is_substep, is_timestep, is_temperature, is_capacity, is_velocity, is_diameter, is_coefficient, is_flow, is_power};

// Whether x lies between low and high, the ends included. A NaN does not.
#[tactic(auto, unfolding(crate::specs::Ranges::within))]
pub fn within(low: f64, high: f64, x: f64) -> bool
    ensures { result ≡ within_of low high x }
{
    (low <= x) & (x <= high)
}

// Seconds.
#[tactic(auto, unfolding(crate::specs::Ranges::is_substep))]
pub fn is_substep(x: f64) -> bool
    ensures { result ≡ is_substep x }
{
    within(0.1, 3600.0, x)
}

// Hours.
#[tactic(auto, unfolding(crate::specs::Ranges::is_timestep))]
pub fn is_timestep(x: f64) -> bool
    ensures { result ≡ is_timestep x }
{
    within(0.01, 24.0, x)
}

// °C.
#[tactic(auto, unfolding(crate::specs::Ranges::is_temperature))]
pub fn is_temperature(x: f64) -> bool
    ensures { result ≡ is_temperature x }
{
    within(-50.0, 250.0, x)
}

// kJ/K.
#[tactic(auto, unfolding(crate::specs::Ranges::is_capacity))]
pub fn is_capacity(x: f64) -> bool
    ensures { result ≡ is_capacity x }
{
    within(0.001, 1000000.0, x)
}

// m/s.
#[tactic(auto, unfolding(crate::specs::Ranges::is_velocity))]
pub fn is_velocity(x: f64) -> bool
    ensures { result ≡ is_velocity x }
{
    within(0.0001, 100.0, x)
}

// Millimetres.
#[tactic(auto, unfolding(crate::specs::Ranges::is_diameter))]
pub fn is_diameter(x: f64) -> bool
    ensures { result ≡ is_diameter x }
{
    within(0.01, 1000.0, x)
}

// a and b of a heat exchanger.
#[tactic(auto, unfolding(crate::specs::Ranges::is_coefficient))]
pub fn is_coefficient(x: f64) -> bool
    ensures { result ≡ is_coefficient x }
{
    within(-1000000.0, 1000000.0, x)
}

// l/min.
#[tactic(auto, unfolding(crate::specs::Ranges::is_flow))]
pub fn is_flow(x: f64) -> bool
    ensures { result ≡ is_flow x }
{
    within(0.001, 1000.0, x)
}

// kW.
#[tactic(auto, unfolding(crate::specs::Ranges::is_power))]
pub fn is_power(x: f64) -> bool
    ensures { result ≡ is_power x }
{
    within(0.0, 1000.0, x)
}
