// The space report.
ghost use Rattle.std.specs.Prelude.{◌≡◌, ◌-◌, ◌^◌, ◌<◌, ◌≤◌};
ghost use Rattle.bitset.specs.Bits.{in_set, limit};
ghost use Rattle.layout.specs.Shaped.{Limits};
ghost use Rattle.report.specs.Reports;
ghost use Rattle.report.specs.Reports.{ratio_if_mapped, report_from, report_on, report_answer};

use crate::Report;
use bitset::count_below;
use image::{Free, MAP_SET_WORDS, UNIT_SET_WORDS};
use layout::{Refusal, Shape};
use loader::load::load_into;

// One rounded division of two counts.
fn ratio(a: u32, b: u32) -> f64
    ensures { result ≡ Reports.ratio a b }
{
    a as f64 / b as f64
}

// Saved units divided by raw, the units of the mapped chunks stored raw; 0.0 when nothing is mapped.
fn saved_ratio(mapped: u32, saved: u32, raw: u32) -> f64
    ensures { result ≡ ratio_if_mapped mapped saved raw }
{
    if mapped == 0 {
        return 0.0;
    }
    ratio(saved, raw)
}

// The report on a volume of shape g, with so many mapped chunks and free units.
fn report_in(g: Shape, mapped: u32, free: u32) -> Report
    requires { (Limits g) × (mapped ≤ g.m) }
    ensures { result ≡ report_from g mapped free }
{
    let raw = mapped * g.p;
    let held = (g.n - g.r).saturating_sub(free);
    let saved = raw.saturating_sub(held);
    Report {
        mapped,
        held,
        free,
        saved,
        held_ratio: ratio(held, g.n),
        saved_ratio: saved_ratio(mapped, saved, raw),
    }
}

// The report on a volume of shape g, by what is free: any sets, right or not.
pub fn report_on(g: Shape, free: &Free) -> Report
    requires limits { Limits g }
    requires maps_bound { limit free.now.maps.now < 2 ^ 64 }
    ensures { result ≡ report_on g (in_set free.now.units.now) (in_set free.now.maps.now) }
{
    let units = count_below(free.units, g.n);
    // Each mapped chunk names a map of its own: they are as many as the maps that are not free.
    let unnamed = count_below(free.maps, g.m);
    let mapped = g.m - unnamed;
    report_in(g, mapped, units)
}

// The report on an image.
pub fn report(image: &[u8]) -> Result<Report, Refusal>
    ensures { result ≡ report_answer image.now }
{
    let mut units = [0u64; UNIT_SET_WORDS];
    let mut maps = [0u64; MAP_SET_WORDS];
    let g = load_into(image, &mut units, &mut maps)?;
    let free = Free {
        units: &units,
        maps: &maps,
    };
    Ok(report_on(g, &free))
}
