// The tests that the legs of a strategy pass.
ghost use Rattle.std.specs.Prelude.{◌≡◌, ◌≤◌};
ghost use Rattle.strategies.specs.Limits.{highest_ratio};
ghost use Rattle.strategies.specs.Legs.{rising_from, ratios_fit, largest, smallest, ratios_near, divides_all, share_divisor, ratios_lawful};

use crate::leg::Leg;
use crate::limits::{HIGHEST_RATIO, RATIO_SPREAD};
use simple::LAST_SERIES;

// Whether each series is at most the last one and higher than that of the leg before.
pub(crate) fn series_rise(legs: &[Leg]) -> bool
    ensures { result ≡ rising_from 0 legs.now }
{
    legs.iter().all(|leg| leg.series <= LAST_SERIES)
        && legs.is_sorted_by(|leg, next| leg.series < next.series)
}

// Whether each ratio is 1 to 8.
fn ratios_fit(legs: &[Leg]) -> bool
    ensures { result ≡ ratios_fit legs.now }
{
    legs.iter()
        .all(|leg| (1..=HIGHEST_RATIO).contains(&leg.ratio))
}

// The largest ratio.
fn largest(legs: &[Leg]) -> u32
    ensures { result ≡ largest legs.now }
{
    legs.iter().map(|leg| leg.ratio).max().unwrap_or(0)
}

// The smallest ratio, or 8 where none is below.
fn smallest(legs: &[Leg]) -> u32
    ensures value { result ≡ smallest legs.now }
    ensures within { result ≤ highest_ratio }
{
    legs.iter()
        .fold(HIGHEST_RATIO, |least, leg| least.min(leg.ratio))
}

// Whether the largest ratio does not exceed three times the smallest.
fn ratios_near(legs: &[Leg]) -> bool
    ensures { result ≡ ratios_near legs.now }
{
    largest(legs) <= RATIO_SPREAD * smallest(legs)
}

// Whether a number divides all ratios.
fn divides_all(n: u32, legs: &[Leg]) -> bool
    requires { 2 ≤ n }
    ensures { result ≡ divides_all n legs.now }
{
    legs.iter().all(|leg| leg.ratio % n == 0)
}

// Whether a number above 1 divides all ratios; none above 8 does.
fn share_divisor(legs: &[Leg]) -> bool
    ensures { result ≡ share_divisor legs.now }
{
    (2..=HIGHEST_RATIO).any(|n| divides_all(n, legs))
}

// Whether each ratio is 1 to 8, all are near, and no number above 1 divides all.
pub(crate) fn ratios_lawful(legs: &[Leg]) -> bool
    ensures { result ≡ ratios_lawful legs.now }
{
    ratios_fit(legs) && ratios_near(legs) && !share_divisor(legs)
}
