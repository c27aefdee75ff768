// The alarm.
ghost use Rattle.std.specs.Prelude.{◌≡◌, ◌^◌, ◌<◌};
ghost use Rattle.bitset.specs.Bits.{in_set, limit};
ghost use Rattle.report.specs.Alarms.{alarm_at, alarm_on, alarm_answer};

use crate::{Alarm, Level};
use bitset::count_below;
use image::{MAP_SET_WORDS, UNIT_SET_WORDS};
use layout::{Refusal, Shape};
use loader::load::load_into;

// Whether the alarm sounds at a level, with `free` of n units free.
fn alarm_at(free: u32, n: u32, level: Level) -> Result<Alarm, Refusal>
    ensures { result ≡ alarm_at free n level }
{
    let sounds = match level {
        Level::Count(k) => (free as u64) < k,
        Level::Fraction(x) if x.is_nan() || x < 0.0 || x > 1.0 => return Err(Refusal::BadAlarm),
        Level::Fraction(x) => (free as f64) < x * (n as f64),
    };
    Ok(if sounds { Alarm::Sounds } else { Alarm::Silent })
}

// Whether the alarm of a volume of shape g sounds at a level, by a set of free units: any set, right or not.
pub fn alarm_on(g: Shape, units: &[u64], level: Level) -> Result<Alarm, Refusal>
    requires { limit units.now < 2 ^ 64 }
    ensures { result ≡ alarm_on g (in_set units.now) level }
{
    let free = count_below(units, g.n);
    alarm_at(free, g.n, level)
}

// Whether the alarm of a volume sounds at a level.
pub fn alarm(image: &[u8], level: Level) -> Result<Alarm, Refusal>
    ensures { result ≡ alarm_answer image.now level }
{
    let mut units = [0u64; UNIT_SET_WORDS];
    let mut maps = [0u64; MAP_SET_WORDS];
    let g = load_into(image, &mut units, &mut maps)?;
    alarm_on(g, &units, level)
}
